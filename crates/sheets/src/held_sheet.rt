// A percentage sheet in memory, as an update takes it: the volumes are none of its.
ghost use Rattle.std.specs.Prelude.{◌≡◌, ◌*◌, ◌-◌, ◌≤◌, length, get_or};
ghost use Rattle.numerals.specs.Limits.{most_backends, most_services};
ghost use Rattle.sheets.specs.PercentageSheet.{sum};

use crate::percentage_sheet::Head;

// The ids and the weights of all services stand in one row each, as many of each service as its size says.
#[derive(Drop)]
pub struct HeldSheet<'a> {
    pub head: Head,
    pub sizes: &'a [usize],
    pub ids: &'a [usize],
    pub weights: &'a [u64],
    ghost named: { sum sizes.now ≡ length ids.now },
    ghost weighed: { sum sizes.now ≡ length weights.now },
    ghost few: { length weights.now ≤ most_services * most_backends },
}

impl HeldSheet<'_> {
    // How many backends a service has, where there is one of that number.
    pub fn size_of(&self, service: usize) -> usize
        ensures { (1 ≤ service) → (service ≤ length self.now.sizes.now) → result ≡ get_or self.now.sizes.now (service - 1) 0 }
    {
        // 0 is no service's number: one less is then a place that no row has
        self.sizes
            .get(service.wrapping_sub(1))
            .copied()
            .unwrap_or(0)
    }
}
