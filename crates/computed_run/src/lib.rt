// A computed run is definitions alone.
#![tactic(auto)]
