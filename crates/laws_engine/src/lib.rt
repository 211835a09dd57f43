// Demand 3 over any engine, without code.

#![tactic(auto)]
