//! The table of handles of a stream: which entry each handle names, and the class chain of each
//! descriptor that has been read.
#![tactic(auto)]

mod ahead;
mod chains;
mod class;
mod codes;
mod descriptor;
mod entry;
pub mod flags;
mod kept;
pub mod laws;
mod layer;
mod name;
mod section;
mod table;
mod walks;

pub use class::{ChainNumber, Class};
pub use codes::{Codes, size_of_code};
pub use entry::{Closed, Entry, Kind};
pub use kept::KeptLayer;
pub use layer::{BodyKind, Fit, Layer, LayerKind, Purpose};
pub use name::{Element, element_of, is_text, layer_kind_of};
pub use section::{Section, SectionNumber, Sections};
pub use table::{Table, TableFault};
