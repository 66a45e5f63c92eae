//! What a stream is (Java Object Serialization Specification, section 6.4): the trees of its contents, the
//! bytes that spell them, the table of handles after them, and which trees obey the format. All of it is in
//! `specs/`, to be read aloud; the only code are the constants of the protocol, in `wire`, and the greatest
//! limits, in `caps`.
#![tactic(auto)]

pub mod caps;
pub mod wire;
