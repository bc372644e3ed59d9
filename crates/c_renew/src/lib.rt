// Document 02, [11], for callers in C: a renewal on a lent record, without and with an outside share.
#![tactic(auto)]

pub mod outside;
pub mod renewal;
