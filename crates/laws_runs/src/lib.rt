// Laws of the rules: no code.
#![tactic(auto)]
