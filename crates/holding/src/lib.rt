#![tactic(auto)]

// Why an object is still here, in definitions (specs/): the chains of references from a root or a handle to it and the foremost of them (Holding), that
// chain computed, its words, and what is answered and left in the lent words (Finding); and the theorems over them (proofs/): what is computed is the
// foremost chain, 18 is answered exactly where no root or handle leads to the object (Found), and no two chains are foremost (Order). The crate has no code: the walk that finds the chain is the crate `reasons`.
