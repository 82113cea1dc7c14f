// Examples of document 02's L9, alone.
#![tactic(auto)]
