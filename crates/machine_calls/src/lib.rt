// The store and its book, read as a state of the collector machine: definitions and laws alone.
#![tactic(auto)]
