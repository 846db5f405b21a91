// Laws of the call over a list of starts and ends (specs/): what its entries get is what a guided search answers. No code.
#![tactic(auto)]
