// Laws about log records alone.
#![tactic(auto)]
