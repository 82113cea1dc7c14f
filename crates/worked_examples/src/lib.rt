// The table of examples is a statement about definitions alone.
#![tactic(auto)]
