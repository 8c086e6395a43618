// No code: the house spelling in bytes stands in specs/, and what the reader makes of it in proofs/.
#![tactic(auto)]
