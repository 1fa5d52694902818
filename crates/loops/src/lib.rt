#![tactic(auto)]

// Loops as definitions, for any state: each, again, every, tally, first, and their laws. Code and theory share them: a loop in code
// has an equation with one of them as its invariant, and a theorem about an act goes by the laws of the loop that the act is.
// The crate has no code; specs/Loop.antt has the definitions, proofs/ the laws.
