// Examples of the sweeping step in the paper's order are definitions and laws alone.
#![tactic(auto)]
