//! Why a reader may say that bytes are a stream: the tokens into which a stream is cut, the machine that reads
//! them one after the other, and the laws that join it to the grammar of `jser_grammar`. `specs/` has the
//! definitions, `laws` what holds of them. There is no code here.
#![tactic(auto)]

pub mod laws;
