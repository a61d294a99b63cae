// Laws of the order of names: no code.
#![tactic(auto)]
