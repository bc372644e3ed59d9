// The chain for callers in C: open, quarter and close on a lent record, and the total over sectors.
#![tactic(auto)]

pub mod figures;
pub mod outside;
pub mod records;
