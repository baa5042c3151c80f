// What is proved of the machine's own trace as a recording: specs/ and proofs/ alone.
#![tactic(auto)]
