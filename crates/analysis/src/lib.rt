// The analysis: a row for every event of the log.
#![tactic(auto)]
