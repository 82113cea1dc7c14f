// A set that writes an object's own number, and stores that hold one: what is claimed of every store, alone.
#![tactic(auto)]
