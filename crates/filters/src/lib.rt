// Bloom filters and the filter block. The definitions are in specs/, laws about them in proofs/; code that makes and reads filters is in
// a crate above.

#![tactic(auto)]
