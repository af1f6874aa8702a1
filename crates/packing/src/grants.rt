// The grants: the next rule goes, again and again, to the service whose next stair saves the most.
ghost use Rattle.std.specs.Prelude.{◌≡◌, ◌<◌, ◌≤◌, length, get_or};
ghost use Rattle.numerals.specs.Limits.{most_capacity};
ghost use Rattle.numerals.specs.Sums.{sum_to};
ghost use Rattle.packing.specs.Inner.Stored as stored;
ghost use Rattle.packing.specs.Inner.Stored.{Falls, AllPayable, Started, Allotted};
ghost use Rattle.packing.specs.Inner.Tournament.{Replaced, key_of, Entered};

use crate::lists::{PLACES, STRIDE};
use crate::tournament::{LAST, LEAVES, Tree};
use numerals::MOST_SERVICES;

// All services as they are packed: the volume of each, its rules and stairs at its places, its number of rules and how
// its list ended. No cost of theirs wraps. The arrays are lent, since those of a literal are copied into it.
#[derive(Clone, Copy)]
pub struct Priced<'a> {
    pub volumes: &'a [u64],
    pub lens: &'a [usize; PLACES],
    pub values: &'a [usize; PLACES],
    pub backends: &'a [usize; PLACES],
    pub stairs: &'a [u64; PLACES],
    pub counts: &'a [usize; MOST_SERVICES],
    pub ends: &'a [usize; MOST_SERVICES],
    ghost payable: { AllPayable volumes.now stairs.now counts.now },
}

impl Priced<'_> {
    // What the next rule of service s saves: volume times the drop of its next stair, and 0 past the list's end.
    fn saving(&self, s: usize, grant: usize) -> u64
        requires { (s < length self.now.volumes.now)
            × Falls self.now.stairs.now s (get_or self.now.counts.now s 0) grant }
        ensures { result ≡ stored.stored_saving (get_or self.now.volumes.now s 0)
            self.now.stairs.now s (get_or self.now.counts.now s 0) grant }
    {
        if grant < self.counts[s] {
            let at = STRIDE * s + grant;
            self.volumes[s] * (self.stairs[at] - self.stairs[at + 1])
        } else {
            0
        }
    }

    // Enters service s with what its next rule saves; of equal savings the lowest number has the greatest key.
    fn enter(&self, tree: &mut Tree, grants: &[usize; MOST_SERVICES], s: usize)
        requires { (s < length self.now.volumes.now)
            × Falls self.now.stairs.now s (get_or self.now.counts.now s 0) (get_or grants.now s 0) }
        ensures { Replaced tree.old.nodes s
            (key_of (stored.savings self.now.volumes.now
            self.now.stairs.now self.now.counts.now grants.now s) s)
            tree.new.nodes }
    {
        let gain = self.saving(s, grants[s]);
        tree.replace(s, LEAVES as u64 * gain + (LAST - s) as u64);
    }

    // The tournament of all services; the key of a leaf without a service is 0.
    fn enter_all(&self, grants: &[usize; MOST_SERVICES]) -> Tree
        requires { Started self.now.volumes.now
            self.now.stairs.now self.now.counts.now grants.now }
        ensures { Entered
            (stored.savings self.now.volumes.now
            self.now.stairs.now self.now.counts.now grants.now)
            (length self.now.volumes.now) result.nodes }
    {
        let mut tree = Tree::new();
        for service in 0..self.volumes.len() {
            self.enter(&mut tree, grants, service);
        }
        tree
    }

    // Each service has its least grant; further rules are granted until the capacity is used up or nothing is saved. The
    // sum of the grants.
    pub fn grant_all(&self, capacity: usize, grants: &mut [usize; MOST_SERVICES]) -> usize
        requires started { Started self.now.volumes.now
            self.now.stairs.now self.now.counts.now grants.old }
        requires room { (0 < length self.now.volumes.now) × (capacity ≤ most_capacity)
            × (sum_to (length self.now.volumes.now) (stored.held grants.old) ≤ capacity) }
        ensures { Allotted (stored.held grants.old) capacity self.now.volumes.now
            self.now.stairs.now self.now.counts.now grants.new result }
    {
        let mut tree = self.enter_all(grants);
        let granted: usize = grants[..self.volumes.len()].iter().sum();
        for rules in granted..capacity {
            if tree.nodes[1] < LEAVES as u64 {
                return rules;
            }
            let s = LAST - (tree.nodes[1] % LEAVES as u64) as usize;
            grants[s] += 1;
            self.enter(&mut tree, grants, s);
        }
        capacity
    }

    // The sum of volume times imbalance. A service has as many lines as granted, or its whole list if that is shorter.
    pub fn total_cost(&self, grants: &[usize; MOST_SERVICES]) -> u64
        ensures { result ≡ stored.stored_total self.now.volumes.now
            self.now.stairs.now self.now.counts.now grants.now }
    {
        let mut sum: u64 = 0;
        for s in 0..self.volumes.len() {
            let c = grants[s].min(self.counts[s]);
            sum += self.volumes[s] * self.stairs[STRIDE * s + c];
        }
        sum
    }

    // The number of lines of all services.
    pub fn all_lines(&self, grants: &[usize; MOST_SERVICES]) -> usize
        ensures sum { result ≡ sum_to (length self.now.volumes.now)
            (stored.stored_lines grants.now self.now.counts.now) }
        ensures few { result ≤ most_capacity }
    {
        let mut lines = 0;
        for service in 0..self.volumes.len() {
            lines += grants[service].min(self.counts[service]);
        }
        lines
    }
}
