//! What a command line sets beside its input: the filter, of a text or a file, the table of modules of a file, and the limit of
//! a text.
//!
//! `filter_of`, `filter_in`, `modules_of` and `limit_of` make them, and tell faults. The statuses of the program are here, and how a
//! fault is told; so is the reading of a source whole, up to a limit.
#![tactic(auto)]

mod faulty_line;
mod file_fault;
mod file_text;
mod filter_file;
mod limit;
mod no_pattern;
mod settings;
mod status;
mod unseen;
mod whole;

pub use file_fault::{FileCause, FileFault};
pub use file_text::{FileTextFault, filter_text_of};
pub use limit::limit_of;
pub use no_pattern::{has_pattern, note_modules, note_patterns, note_text};
pub use settings::{filter_in, filter_of, filter_text_in, modules_of};
pub use status::{
    ACCEPTED, CUT, FAILED, MISUSED, REFUSED, tell_failure, tell_input_fault, tell_misuse,
    tell_misuse_of,
};
pub use whole::{WholeFault, read_front};
