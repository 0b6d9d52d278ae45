// Whole tables: the full check, the plain reading, building, and what is promised of them. The definitions are in specs/, laws about them
// in proofs/; code is in crates above.

#![tactic(auto)]
