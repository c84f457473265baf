// The marked examples (RULES, Marked examples) are in specs/.
#![tactic(auto)]
