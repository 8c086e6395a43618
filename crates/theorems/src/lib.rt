// No code: the statements that answer the demands stand in specs/, their proofs in proofs/.
#![tactic(auto)]
