// All that is promised, on one page, and that it is kept. No code.
#![tactic(auto)]
