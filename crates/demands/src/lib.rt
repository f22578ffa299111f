// No code: what is claimed of the definitions stands in specs/, and the proofs in proofs/.

#![tactic(auto)]
