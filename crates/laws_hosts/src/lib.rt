// A host in C: what each of its calls does, and that the demands hold of what it holds: laws, no code.
#![tactic(auto)]
