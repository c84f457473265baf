// Demand 3 on lit's answers is in specs/.
#![tactic(auto)]
