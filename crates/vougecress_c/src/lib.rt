// The library for callers in C, as one static library: each function calls that of its crate, which holds what it does and whose contract it repeats.
// include/vougecress.h documents each function for its caller.
#![tactic(auto)]

pub mod chain_figures_for_c;
pub mod chain_outside_for_c;
pub mod chain_records_for_c;
pub mod draw_for_c;
pub mod draw_kept_for_c;
pub mod group_for_c;
pub mod lines_for_c;
pub mod load_for_c;
pub mod renew_outside_for_c;
pub mod renew_renewal_for_c;
pub mod rotation_for_c;
pub mod rotation_kept_for_c;
pub mod sample_for_c;
pub mod sheet_for_c;
pub mod stream_for_c;
pub mod units_for_c;
pub mod vougecress_for_c;
pub mod word_for_c;
pub mod write_for_c;
pub mod year_for_c;
