// Numbers, lists, folds, codecs of fixed width and trays, of which nothing knows this house.
// Definitions stand in specs/, laws in proofs/laws/.
#![tactic(auto)]
