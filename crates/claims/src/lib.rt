// The claims of the kernel's model, proved: see specs/ for what they say and proofs/ for why it holds. No code stands
// here.
#![tactic(auto)]
