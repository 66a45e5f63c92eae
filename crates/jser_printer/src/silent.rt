//! Tokens that are gone past with no text, for one who asks only what is open. The sink has failed, so nothing is made for it: a
//! token with a long text costs little.
ghost use Rattle.std.specs.Prelude.{◌≡◌, OnOk};
ghost use Rattle.jser_reading.specs.Labels.{StreamToken};
ghost use Rattle.jser_shown.specs.Telling.{goes, settled};
ghost use Rattle.jser_printer.specs.Given.{IsOf};

use crate::printer::Printer;
use crate::token::Token;
use jser_prim::{Broken, Outbox};
use std::alloc::AllocError;

impl Printer<'_> {
    /// Goes past a token with all that is due before it, and writes nothing.
    ///
    /// # Errors
    ///
    /// Where memory runs out. The printer is of no use then.
    pub fn pass(&mut self, token: Token<'_>) -> Result<(), AllocError>
        ensures { OnOk result ((told : StreamToken) → IsOf token.entry told → self.new ≡ goes (settled self.old) told) }
    {
        self.write_next(&mut Outbox::new(), &mut Broken, token)
    }

    /// Goes past all that is due before the next token, and writes nothing.
    ///
    /// # Errors
    ///
    /// Where memory runs out. The printer is of no use then.
    pub fn settle(&mut self) -> Result<(), AllocError>
        ensures { OnOk result (self.new ≡ settled self.old) }
    {
        self.write_all_due(&mut Outbox::new(), &mut Broken)
    }
}
