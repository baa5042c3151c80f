// Value change dumps of runs, a reader of dumps, and what is proved of both: specs/ and proofs/ alone.
#![tactic(auto)]
