// The user's demands as theorems: no code.
#![tactic(auto)]
