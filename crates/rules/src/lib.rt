// No code: the definitions of specs/ and the theorems of proofs/ are what this crate is for.

#![tactic(auto)]
