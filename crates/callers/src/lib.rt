// Theorems about the bytes that a caller lends: see specs/ for what they say and proofs/ for why it holds. No code
// stands here.
#![tactic(auto)]
