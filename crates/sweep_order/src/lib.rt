// The sweeping step in the paper's order. The definitions stand in specs/.
#![tactic(auto)]
