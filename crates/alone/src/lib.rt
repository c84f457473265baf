// Theorems alone, in specs/: a device on the bus behaves as if it were alone there.
#![tactic(auto)]
