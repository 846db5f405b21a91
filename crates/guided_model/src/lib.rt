// The guided search's state as predicates on lists, and the proof that its log and its plan are what is promised: specs/ has both. There is no code here.
#![tactic(auto)]
