// The three maintenance zones of document 02, Note 4: what they are and how they are found in specs/, the proofs in proofs/.
// This crate has no code of its own.
#![tactic(auto)]
