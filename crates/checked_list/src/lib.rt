// The cases of the paper: those proved against the definitions stand in proofs/.
#![tactic(auto)]
