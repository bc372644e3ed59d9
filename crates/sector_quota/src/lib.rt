// Nothing runs here: the crate holds the laws of document 02, [10], about the definitions of `rules` (proofs/Passes.antt, proofs/Counts.antt).
#![tactic(auto)]
