//! Filter texts of class names and limits, in the language of `ObjectInputFilter.Config.createFilter`:
//! what a text means, and what it says of a name.
//!
//! ```rust
//! use jser_filter::{Filter, Modules, Verdict};
//! use jser_prim::units_of;
//! use jser_table::{Element, element_of};
//!
//! fn allows(filter: &Filter, name: &[u16]) -> bool {
//!     match element_of(name) {
//!         Element::Malformed => false,
//!         Element::Name(_) | Element::Primitive => {
//!             !matches!(filter.judge(name), Verdict::Rejected(_))
//!         }
//!     }
//! }
//! ```
#![tactic(auto)]

mod cut;
mod fault;
mod filter;
mod index;
pub mod laws;
mod limit;
mod modules;
mod pattern;
mod piece;
mod pieces;
mod places;
mod trie;
mod units;
mod verdict;
mod words;

pub use fault::{FilterCause, FilterFault, ModulesCause, ModulesFault};
pub use filter::Filter;
pub use limit::Limits;
pub use modules::Modules;
pub use verdict::Verdict;
