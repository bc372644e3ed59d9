// Document 02, [4], both round trips: what was written is read as the commands that were given, and what was read is written as the same bytes.
// Theorems over the definitions that `stream_write` and `stream_all` answer by (proofs/); there is no code.
#![tactic(auto)]
