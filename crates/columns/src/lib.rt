// A page by columns. The definitions stand in specs/.
#![tactic(auto)]
