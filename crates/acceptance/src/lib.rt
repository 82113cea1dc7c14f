// Laws about calls alone: what an accepted call tells.
#![tactic(auto)]
