// The walk over a code's instructions, which a step and a listing take: laws, no code.
#![tactic(auto)]
