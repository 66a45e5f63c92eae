//! What the commands `show` and `list` print of a stream, and which node each handle of it names: as functions of
//! its content list, and as what is said and kept along its tokens. `specs/` has the definitions, `laws` what
//! holds of them. There is no code here.
#![tactic(auto)]

pub mod laws;
