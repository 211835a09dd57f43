#![tactic(auto)]

// Theorems on the session's calls, without code.
