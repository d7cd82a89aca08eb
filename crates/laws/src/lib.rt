// No code: this crate is laws of the definitions in model, in proofs/, which theorems and code both cite.
#![tactic(auto)]
