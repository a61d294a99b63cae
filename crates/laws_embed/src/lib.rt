// What an entry itself answers, and how that crosses to a host in C: laws, no code.
#![tactic(auto)]
