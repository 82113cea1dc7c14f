// What the steps of a pass do to the working tables, read as the collector machine's pass: laws alone.
#![tactic(auto)]
