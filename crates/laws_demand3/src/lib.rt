#![tactic(auto)]

// Demand 3 over the calls' contracts, without code.
