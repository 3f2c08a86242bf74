// Paths and connected sets of switches: definitions in specs/, laws in proofs/.
// This crate has no code of its own.
#![tactic(auto)]
