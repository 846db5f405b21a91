// Laws of reduced diagrams and of conjunctions, with no code: see specs/.
#![tactic(auto)]
