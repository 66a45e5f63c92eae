//! The check of many files: what it found of each, as a line or as JSON, and what it found of all; and what is printed of
//! good files, for which a filter is suggested.
//!
//! The program goes through the folders and opens the files. `check_file` checks one, `print_found` prints what was found of
//! it, and a `Tally` counts.
#![tactic(auto)]

mod answer;
mod check;
mod class;
mod found;
mod json;
mod json_text;
mod last;
mod line;
mod path;
mod sample;
mod scan;
mod tail;
mod tally;
mod unopened;

pub use answer::{write_answer, write_count};
pub use check::{Rules, check_file, check_keeping, hidden, refused, refused_in};
pub use found::Found;
pub use json::write_members;
pub use last::LastBytes;
pub use line::{write_path, write_text};
pub use path::{FilePath, is_plain};
pub use sample::{print_suggested, tell_no_sample};
pub use scan::{How, print_counts, print_found, print_summary, tell_found};
pub use tally::Tally;
pub use unopened::tell_unopened;
