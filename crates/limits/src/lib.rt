// Document 01's limits and scales as the code has them, each once, and the tests that several refusals share.
// The definitions' own are in `rules` (specs/Limits.antt); the proof of each function that uses one ties the two, so that a number that differs is
// refused. The range and the scale of a relative belong to its type (crate `chain_relative`).
#![tactic(auto)]

ghost use Rattle.std.specs.Prelude.{◌≡◌};
ghost use Rattle.rules.specs.Chain.{bad_index, bad_units};

// ---- frame and draw
// Units in a frame.
pub const MOST_FRAME: usize = 16384;

// Euros in a frame.
pub const MOST_TURNOVER: u64 = 1_000_000_000_000;

// A random number is below this, and so is a start.
pub const RANDOM_RANGE: u32 = 1_000_000;

// Units in a panel, and places of a chain record.
pub const MOST_PANEL: usize = 100;

// ---- rotation
// A fraction of 1, in thousandths.
pub const FRACTION_SCALE: u32 = 1000;

// Steps that are tried, and how far a step moves the start.
pub const STEPS: u32 = 1000;

pub const STEP_LENGTH: u32 = 1000;

// ---- firms at the border
// γ of 1, in thousandths.
pub const THRESHOLD_SCALE: u32 = 1000;

// ---- chain
// A share of 1. Weights are 64-bit, and so is what divides them.
pub const SHARE_SCALE: u64 = 10_000;

// L is a mean relative times this.
pub const LINK_SCALE: u64 = 1_000;

// The least u or v of a present unit.
pub const LEAST_WEIGHT: u64 = 1_000_000;

// The sum of W, and of v.
pub const MOST_WEIGHT: u64 = 10_000_000_000_000;

// An index; 100 is 1,000,000,000.
pub const LOWEST_INDEX: u64 = 100_000_000;

pub const HIGHEST_INDEX: u64 = 10_000_000_000;

pub const MOST_CLOSES: u64 = 40;

// Figures of a year.
pub const YEAR_PLACES: usize = 4;

// ---- total
pub const MOST_SECTORS: usize = 64;

// A sector share of 1, in millionths.
pub const SECTOR_SCALE: u64 = 1_000_000;

// ---- job stream
// Bytes of a stream, and units that a job holds.
pub const MOST_STREAM: usize = 32768;

pub const MOST_HELD: usize = 1024;

// ---- test load
// A state is below this; it steps by the other two.
pub const STATE_RANGE: u64 = 2_147_483_648;

pub const STATE_FACTOR: u64 = 1_103_515_245;

pub const STATE_ADDEND: u64 = 12_345;

// A turnover of a test load is at most this.
pub const TURNOVER_RANGE: u64 = 10_000_000;

// ---- sample over sectors
// A sector's strength.
pub const LOWEST_STRENGTH: u64 = 1;

pub const HIGHEST_STRENGTH: u64 = 1_000_000_000;

pub const MOST_INTERVIEWS: u64 = 6_400;

// ---- registers as comma lines
// Digits of a field.
pub const MOST_FIELD: usize = 20;

// A number of 32 bits, and one of 64.
pub const MOST_SHORT: u64 = 4_294_967_295;

pub const MOST_LONG: u64 = 18_446_744_073_709_551_615;

// ---- quarterly sheet
// Columns of a name, and of a figure and a change.
pub const NAME_COLUMNS: usize = 20;

pub const NUMBER_COLUMNS: usize = 14;

// Bytes of a line: its 48 columns and a line feed.
pub const LINE_BYTES: usize = 49;

// The printable bytes.
pub const LOWEST_PRINTABLE: u8 = 32;

pub const HIGHEST_PRINTABLE: u8 = 126;

// Hundredths of a percent in 1.
pub const CHANGE_SCALE: u64 = 10_000;

// Decimals of a figure in index points, and of a change in percent.
pub const FIGURE_DECIMALS: usize = 7;

pub const CHANGE_DECIMALS: usize = 2;

// The range of an index, which 12, 14, 19 and 23 share.
pub fn bad_index(c: u64) -> bool
    ensures { result ≡ bad_index c }
{
    !(LOWEST_INDEX..=HIGHEST_INDEX).contains(&c)
}

// 9: a number of units that is 0 or over a panel.
pub fn bad_units(n: usize) -> bool
    ensures { result ≡ bad_units n }
{
    !(1..=MOST_PANEL).contains(&n)
}
