// No function: what the proofs about a lent struct have in common, whatever the struct is.
#![tactic(auto)]
