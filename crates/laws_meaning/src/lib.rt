// Laws of machines that mean the same: no code.
#![tactic(auto)]
