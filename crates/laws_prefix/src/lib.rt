// Theorems on the three files' checks, without code: the first bytes of a file decide its answer.

#![tactic(auto)]
