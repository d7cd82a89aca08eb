// No code: this crate is laws of the written tree with labels, in proofs/.
#![tactic(auto)]
