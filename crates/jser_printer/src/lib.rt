//! The text of `show`, written along the tokens of a stream.
#![tactic(auto)]

mod class;
mod draft;
mod frame;
mod layer;
mod name;
mod opened;
mod owner;
mod part;
mod phase;
mod primitive;
mod printer;
mod seen;
mod silent;
mod stack;
mod standing;
mod table;
mod text;
mod token;
mod words;

pub use name::Name;
pub use opened::Open;
pub use owner::OwnerNode;
pub use printer::Printer;
pub use text::Plain;
pub use token::Token;
pub use words::line::write;
pub use words::number::{write_decimal, write_hex};
pub use words::quote::{write_quoted, write_units};
