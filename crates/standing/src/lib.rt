// No code: this crate is what holds at each point of interning, in specs/ and proofs/, for the walk over records.
#![tactic(auto)]
