// The sweep as a function on lists, and the proof that it gives the least costs: specs/ has both. There is no code here.
#![tactic(auto)]
