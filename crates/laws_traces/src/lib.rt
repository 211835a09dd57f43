#![tactic(auto)]

// Theorems on traces that are turned, without code: what is turned comes back.
