// The theorem of demand 3: a proof alone.
#![tactic(auto)]
