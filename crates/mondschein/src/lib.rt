// Networks, ear lists and walks: definitions and statements in specs/, their proofs in proofs/.
// This crate has no code of its own.
#![tactic(auto)]
