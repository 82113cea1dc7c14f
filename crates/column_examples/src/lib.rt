// The examples are definitions and laws alone.
#![tactic(auto)]
