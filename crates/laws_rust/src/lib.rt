// The Rust that is ported, written down, and that the rules do what it does: laws, no code.
#![tactic(auto)]
