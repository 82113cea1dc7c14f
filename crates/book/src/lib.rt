// The book and demand 3 are definitions alone.
#![tactic(auto)]
