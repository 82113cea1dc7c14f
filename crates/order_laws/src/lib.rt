// The sweeping step in the paper's order: what is claimed of it, and laws, alone.
#![tactic(auto)]
