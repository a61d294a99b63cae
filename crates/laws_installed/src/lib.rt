// What a rule that passed the check does and needs once it is installed through the entries: laws, no code.
#![tactic(auto)]
