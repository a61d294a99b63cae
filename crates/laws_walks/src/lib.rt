// Laws of walks: how a function over slices of records is proved by hand, from its MIR. No code.
#![tactic(auto)]
