// Laws about the reduction of a diagram, its file, and what the call that writes it promises. They are in specs/ and proofs/.
#![tactic(auto)]
