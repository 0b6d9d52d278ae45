// What is promised, of the public contracts alone. The statements are in specs/, their proofs in proofs/; there is no code.

#![tactic(auto)]
