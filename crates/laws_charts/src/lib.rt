#![tactic(auto)]

// Theorems on chart pages, without code: what stands where on a page, and what a call reads.
