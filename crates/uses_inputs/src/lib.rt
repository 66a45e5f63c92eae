//! Laws of `jser_inputs` in the words of the kit's encoders: what they write is a text that spells the bytes. And callers of it,
//! whose contracts follow from its public clauses alone.
#![tactic(auto)]

pub mod laws;
pub mod texts;
