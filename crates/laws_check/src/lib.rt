// What a program that passed the check never does: laws, no code.
#![tactic(auto)]
