// The tables of document 01 with known results: specs/ and proofs/ alone.
#![tactic(auto)]
