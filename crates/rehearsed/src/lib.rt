// Demand 3 for every rehearsal, and for what the program shows of it.
// The statements stand in specs/Demand3.antt and specs/Shown.antt, their proofs in proofs/laws/; no code.
#![tactic(auto)]
