#![tactic(auto)]

// The paper in definitions: the image by keys and places, soundness, the acts, what each writes, the questions, outlists, the order of refusals,
// histories and chains (specs/); and the theorems over them (proofs/): every accepted act keeps soundness and writes what the paper says and
// nothing else (Effects), counts stay right (Counting), what a local collection keeps and frees (Localizing, Collecting), the closure behind a
// trace and the question, outlists (Outlists), what a session handle keeps (Sessions), progress, and demand 3 as one record over histories
// (proofs/Demand.antt). The crate has no code: the crates above have the acts.
