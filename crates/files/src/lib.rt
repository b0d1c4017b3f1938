// The two files of a call: definitions in specs/, proofs in proofs/; no code.
#![tactic(auto)]
