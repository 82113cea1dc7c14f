// Laws about the machine alone.
#![tactic(auto)]
