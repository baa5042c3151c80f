// Which recordings are legal, and where two differ: specs/ and proofs/ alone.
#![tactic(auto)]
