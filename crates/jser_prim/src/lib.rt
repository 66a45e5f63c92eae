//! What reading and writing of Java object streams stands on: modified UTF-8, big-endian numbers, and the
//! devices that bytes come from and go to.
//!
//! Nothing here knows the stream's grammar, and nothing here ends the process.
#![tactic(auto)]

mod blocks;
mod broken;
mod device;
mod front;
mod lanes;
mod lines;
mod number;
mod outbox;
mod place;
mod reading;
mod runs;
mod scan;
mod sink;
mod source;
mod spelling;

pub use broken::Broken;
pub use device::{Failed, FailedAfter};
pub use front::Front;
pub use lanes::is_plain_between;
pub use lines::whole_lines;
pub use number::{read_u16, read_u32, read_u64};
pub use outbox::Outbox;
pub use reading::read_units;
pub use scan::{TextFault, TextFaultAfter, TextScan};
pub use sink::{Sink, ToWrite, give_all};
pub use source::{FromRead, Source};
pub use spelling::{spell_unit, text_bytes, units_of};
