//! The definitions of words, instructions, texts, runs and policies, computed on worked values.
//!
//! It has no code: `proofs/` holds the computations, which the check makes.
#![tactic(auto)]
