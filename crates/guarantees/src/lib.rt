// What stands beside demand 3: statements and proofs alone.
#![tactic(auto)]
