// The return trip: what is saved loads, and what is loaded saves. Laws, no code.
#![tactic(auto)]
