#![tactic(auto)]

// What the customer signs: demands 1 to 3 over the public calls, each a named theorem whose statement can be read with the paper beside it.
// Demand 1, the table of refusals: specs/Rows and specs/Recovering, proofs/Refusals, proofs/Recoveries, proofs/Leaving.
// Demand 2, every cut of a log: specs/Book, proofs/Books. What a call writes, what local spares and what ask answers: specs/Effects,
// proofs/Effects; what outlist answers: proofs/Outlists; what why answers: specs/Why, proofs/Why. Counts are right: specs/Counts, proofs/Counts.
// Reached, whatever calls are made: specs/World, proofs/Reached. Demand 3, on every heap so reached whose phase is open: specs/Phase,
// proofs/Phases. What a session handle keeps, from a hold on: specs/Sessions, proofs/Sessions. The starred numbers: specs/Paper, proofs/Starred.
// That no second outcome meets a call's contract is proved beside the contracts. The crate has no code.
