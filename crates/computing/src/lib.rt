// What is computed are definitions alone.
#![tactic(auto)]
