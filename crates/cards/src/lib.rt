// The bench cards of document 01, computed over the definitions of crate mondschein: proofs/Cards.antt.
// This crate has no code of its own.
#![tactic(auto)]
