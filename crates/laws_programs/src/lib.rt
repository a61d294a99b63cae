// Laws of a program in stores: good order, a search, what an entry of emission leaves. No code.
#![tactic(auto)]
