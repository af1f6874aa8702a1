// The unit and the limits (document 01, "Units and limits"; document 02, Req 04 and 07), each named once; specs/Limits has the same names.

// k, and the bits of a suffix.
pub const MOST_BITS: usize = 12;
// The suffixes of so many bits.
pub const MOST_SUFFIXES: usize = 4096;
// Backends of a service.
pub const MOST_BACKENDS: usize = 32;
// The id of a backend, from 1 on.
pub const MOST_ID: usize = 9999;
// The backends that an update may know: those of the old list's rules and those of the new weights.
pub const MOST_KNOWN: usize = 64;

pub const MOST_SERVICES: usize = 64;
// Rules of one service, and the budget of a list.
pub const MOST_RULES: usize = 32;
// The capacity C, and the rules of a table.
pub const MOST_CAPACITY: usize = 2048;

pub const MOST_VOLUME: u64 = 10000;
// Digits behind the dot of a percentage.
pub const DECIMALS: usize = 6;
// 100 percent in hundred-millionths, the sum of a service's weights; also one suffix in parts of the imbalance.
pub const UNIT: u64 = 100000000;
// A text in bytes.
pub const TEXT_LIMIT: usize = 65536;
// The total of a table.
pub const TOTAL_LIMIT: u64 = 262144000000000000;
