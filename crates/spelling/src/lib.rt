// What was written is read as itself: each meaning has one spelling, and each spelling one meaning.
// Theorems over the definitions of records; no code.
#![tactic(auto)]
