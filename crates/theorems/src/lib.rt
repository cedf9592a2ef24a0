// Theorems about whole runs: see specs/ for what they say and proofs/ for why it holds. No code stands here.
#![tactic(auto)]
