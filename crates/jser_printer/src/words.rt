//! The words of the text of `show`, put into an outbox one after another. Nothing here takes memory.

pub(crate) mod descriptor;
pub(crate) mod float;
pub(crate) mod line;
pub(crate) mod meaning;
pub(crate) mod number;
pub(crate) mod quote;
pub(crate) mod section;
pub(crate) mod tag;
pub(crate) mod tagged;
pub(crate) mod value;
