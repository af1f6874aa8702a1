// What the calls answer.

// Which of a backend's two gauges is read: two cases, told apart in one place.
#[derive(Drop)]
pub enum Gauge {
    Share,
    Load,
}

// A share, a load, or the mark that the service is absent.
#[derive(Drop)]
pub enum Reading {
    Share(f64),
    Load(f64),
    Absent,
}

// The record of a backend's gauges: the part of the service's suffixes that it holds, and that part of the volume; laid out
// as C does, for `gulmorzon` hands it on as it is.
#[repr(C)]
#[derive(Drop)]
pub struct Gauges {
    pub share: f64,
    pub load: f64,
}
