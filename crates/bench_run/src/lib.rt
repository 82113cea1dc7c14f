// The bench program's meaning is a definition alone.
#![tactic(auto)]
