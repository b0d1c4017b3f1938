// One step of the semantics: configurations, guards, firing, expiry; definitions in specs/, laws in proofs/.
#![tactic(auto)]
