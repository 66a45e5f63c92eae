//! Streams inside other bytes: heap dumps, captures, logs, message stores.
//!
//! `Finds` gives one header after another and the longest stream that begins there, and `TextFinds` those that a text spells;
//! `judge` the answer for that stream under a filter, and `print_find` prints it.
#![tactic(auto)]

mod answer;
mod budget;
mod bytes;
mod finder;
mod finds;
mod form;
mod group;
mod lanes;
mod longest;
mod marks;
mod next;
mod print;
mod spelled;
mod spot;
mod start;
mod texts;

pub use answer::judge;
pub use budget::{BESIDES, Budget};
pub use finder::Find;
pub use finds::Finds;
pub use form::Form;
pub use next::Next;
pub use print::{Place, print_find, print_spent};
pub use spelled::{Given, Reading};
pub use spot::{Digit, Last, Spot, Step};
pub use start::Start;
pub use texts::{TextFind, TextFinds};
