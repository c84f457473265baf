// Theorems alone, in specs/: what the totals are after any sequence of events, and after any recording.
#![tactic(auto)]
