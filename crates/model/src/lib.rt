// No code: this crate is its definitions, in specs/.
#![tactic(auto)]
