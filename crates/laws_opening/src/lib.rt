#![tactic(auto)]

// Theorems on what an opening leaves, without code: in range if it is accepted, out of range if it is refused.
