// What the bounds are, what a run is, and the theorems about them: specs/ and proofs/ alone.
#![tactic(auto)]
