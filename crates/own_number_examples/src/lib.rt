// Examples of document 02's L8, alone.
#![tactic(auto)]
