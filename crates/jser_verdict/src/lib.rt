//! What a reading of a Java serialization stream answers: for which of 25 reasons the bytes of one token are refused,
//! and that the walk by this verdict tells the first fault (Java Object Serialization Specification, chapter 6).
//! `specs/` has the definitions; `laws` has what holds of them. There is no code here.
#![tactic(auto)]

pub mod laws;
