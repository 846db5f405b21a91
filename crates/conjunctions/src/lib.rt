// Laws about the conjunction of two diagrams, its file, and what the call that writes it promises. They are in specs/.
#![tactic(auto)]
