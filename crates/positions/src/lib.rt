// No code: what an answer with other positions is stands in specs/; that positions go into nothing else of an answer, in proofs/.
#![tactic(auto)]
