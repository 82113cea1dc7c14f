// Laws of the bench program's input alone.
#![tactic(auto)]
