#![tactic(auto)]

// Theorems about what the listing's functions make: `printed` of the whole files, for all files, and nothing else.
