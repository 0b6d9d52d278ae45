// Blocks: entries whose keys share a start with the key before, restarts, and their count. The definitions are in specs/, laws about
// them in proofs/; code that builds and reads blocks is in crates above.

#![tactic(auto)]
