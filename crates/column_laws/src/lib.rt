// A page by columns: what is claimed of it, and laws, alone.
#![tactic(auto)]
