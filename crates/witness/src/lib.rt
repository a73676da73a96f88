// Two nights computed as theorems, so that demand 3 is not about nothing.
// The orders stand in specs/, what comes of them in proofs/laws/; no code.
#![tactic(auto)]
