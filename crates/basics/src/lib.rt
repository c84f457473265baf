// Definitions and laws without a word of this field are in specs/.
#![tactic(auto)]
