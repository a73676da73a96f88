// Demand 3: a job has one final stamp, no two jobs share one, each box delivers by rising stamp, and no leader hands out a job too early.
// The statement stands in specs/Demand3.antt over specs/Words.antt, its proof in proofs/laws/; no code.
#![tactic(auto)]
