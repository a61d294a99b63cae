// What a step checks, opcode by opcode, in order: a table and its theorem, no code.
#![tactic(auto)]
