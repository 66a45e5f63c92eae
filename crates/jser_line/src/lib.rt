//! What the words of a command line ask for.
//!
//! `line_of` reads them by clap's definition of the command. Each command has a file, with its arguments and what is read of
//! them; `args` has the arguments that several commands take.
#![tactic(auto)]

mod args;
mod check;
mod clash;
mod command;
mod explain;
mod find;
mod line;
mod list;
mod printed;
mod records;
mod scan;
mod show;
mod suggest;

pub use args::{Filters, Forms};
pub use clash::Clash;
pub use find::Find;
pub use line::{Line, LineFault, line_of};
pub use printed::printable;
pub use records::Records;
