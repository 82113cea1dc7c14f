// Laws of the search for a chain of references; no code.
#![tactic(auto)]
