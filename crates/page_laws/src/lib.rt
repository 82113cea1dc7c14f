// Laws about page areas alone.
#![tactic(auto)]
