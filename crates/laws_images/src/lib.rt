// Laws of the rule image: its format, and stores that hold a program. No code.
#![tactic(auto)]
