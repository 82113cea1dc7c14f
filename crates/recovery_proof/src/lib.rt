// The laws of the log and of reopening.
#![tactic(auto)]
