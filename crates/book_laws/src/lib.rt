// The laws of the book: what feeding a call does to the committed state and to the full pages.
#![tactic(auto)]
