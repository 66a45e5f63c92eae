//! A sink that has failed.
ghost use Rattle.std.specs.Prelude.{true};

use crate::device::Failed;
use crate::sink::Sink;

/// A sink that has failed from the start: nothing goes out. Code that writes to a sink stops early with it, so what the text
/// would cost is saved where only the other effects of writing are wanted.
#[derive(Drop)]
pub struct Broken;

impl Sink for Broken {
    ghost has_failed = { λ _. true };

    fn give(&mut self, _bytes: &[u8]) -> Result<usize, Failed> {
        Err(Failed)
    }

    fn failed(&self) -> bool {
        true
    }
}
