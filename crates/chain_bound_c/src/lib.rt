// Nothing runs here: the crate ties demand 3 to the contracts of the functions that a program in C calls on a lent record (specs/Lent.antt).
#![tactic(auto)]
