#![tactic(auto)]

// Theorems on the text of fields and lines, without code: what is written is read back.
