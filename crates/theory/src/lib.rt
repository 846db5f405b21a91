// Laws of the definitions, with no code: see specs/.
#![tactic(auto)]
