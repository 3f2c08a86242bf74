// The losses of document 02, Note 7: the walks that a cut duct costs, and the report of them, in specs/; the proofs in proofs/.
// This crate has no code of its own.
#![tactic(auto)]
