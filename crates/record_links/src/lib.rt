// How usages stand in linked records (specs/), and the laws of it (proofs/). There is no code here.
#![tactic(auto)]
