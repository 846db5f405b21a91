// The three demands on both searches, and that they say the same as what the calls promise: see specs/Demands.antt. There is no code here.
#![tactic(auto)]
