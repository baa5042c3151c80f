// Facts about tests, sums and lists that the proofs of every crate cite: specs/ and proofs/ alone.
#![tactic(auto)]
