// The three demands as theorems about the public entries; no code.
#![tactic(auto)]
