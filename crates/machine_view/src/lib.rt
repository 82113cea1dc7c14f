// The laws that read page areas as objects.
#![tactic(auto)]
