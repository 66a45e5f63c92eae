//! The digits of hexadecimal, in either case, and of base64 (RFC 4648, sections 4, 5 and 8): each by itself, and a whole pair or
//! group of them together. A text is little else, and what is looked up in a table costs the same for each character.
#![tactic(auto)]

mod digit;
mod joined;

pub use digit::{Alphabet, base64_digit, hex_digit};
pub use joined::{NO_GROUP, NO_PAIR, group_bits, pair_bits};
