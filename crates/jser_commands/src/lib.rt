//! The jobs of serialcheck, on any input and any outputs.
//!
//! `line_of` of jser_line reads the words of a command line, `filter_of`, `filter_in` and `modules_of` of jser_settings make
//! what they set, and `run` does the job on any source, `run_input` on one that says why it failed, under a key that others
//! do not know. The program opens the files. `start_of_show` and `start_of_list` give the first bytes of these texts to callers that want no more; `text_of_report` and its neighbours give the line of an answer, and `print_line` prints
//! one.
#![tactic(auto)]

mod answer;
mod hidden;
mod input;
mod job;
mod limited;
mod list;
mod list_anywhere;
mod reasons;
mod show;
mod start;
mod telling;

pub use answer::{print_line, text_of_hidden, text_of_refusal, text_of_report};
pub use job::{Job, run, run_input};
pub use jser_names::Keyed;
pub use reasons::{meaning_of, meaning_of_hidden};
pub use start::{Start, start_of_list, start_of_show};
