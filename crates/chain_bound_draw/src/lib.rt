// Nothing runs here: the crate ties demand 3 to the contract of a draw, by either method, whose weights are handed to an open (specs/Drawing.antt).
#![tactic(auto)]
