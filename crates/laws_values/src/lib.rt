// Theorems on the machine over accepted files' buffers, without code.

#![tactic(auto)]
