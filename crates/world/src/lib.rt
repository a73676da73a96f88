// All boxes of a plan and all records ever sent: orders one by one, any record carried at any time.
// The definition stands in specs/World.antt; laws on what is reachable in proofs/laws/; no code.
#![tactic(auto)]
