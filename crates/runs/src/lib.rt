// The theory of runs over an abstract machine: definitions in specs/, proofs in proofs/; no code.
#![tactic(auto)]
