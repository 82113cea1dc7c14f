// What a page area reaches from the root. The definitions stand in specs/.
#![tactic(auto)]
