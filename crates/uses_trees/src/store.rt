//! A store, which writes contents and reads them again.
ghost use Rattle.std.specs.Prelude.{◌≡◌, IfOk, IfSome, List, ℕ, length, Some};
ghost use Rattle.jser_grammar.specs.Spelling.{spelling};
ghost use Rattle.jser_reader.specs.Gates.{open_gate};
ghost use Rattle.jser_trees.specs.Answers.{CarriesFirst, tree_gate};
ghost use Rattle.jser_trees.specs.Building.{list_in};
ghost use Rattle.jser_value.specs.View.{view_contents};

use jser_prim::{Failed, Sink};
use jser_reading::laws::one_reading;
use jser_trees::laws::{finds_list, written_passes};
use jser_trees::{OpenGate, Refusal, Stop, read_all};
use jser_value::{Contents, encode};
use std::alloc::Global;

/// There was no memory.
#[derive(Clone, Copy, PartialEq, Eq, Debug)]
pub struct NoMemory;

/// Keeps all that it is given.
#[derive(Drop)]
struct Page {
    bytes: Vec<u8>,
    failed: bool,
}

impl Sink for Page {
    ghost gone_out = { λ page. Some page.bytes.items };

    ghost has_failed = { λ page. page.failed };

    fn give(&mut self, bytes: &[u8]) -> Result<usize, Failed> {
        if self.bytes.extend_from_slice(bytes).is_err() {
            self.failed = true;
            return Err(Failed);
        }
        Ok(bytes.len())
    }

    fn failed(&self) -> bool {
        self.failed
    }
}

/// The contents that were written as these bytes. They are never refused.
///
/// # Errors
///
/// `NoMemory` where memory ran out.
#[tactic(auto, using(crate::proofs::Again::read_same))]
pub fn read_again(alloc: Global, written: &[u8], contents: &Contents) -> Result<Contents, NoMemory>
    requires { written.now ≡ spelling (view_contents contents.now) }
    ensures { IfOk result (λ again. view_contents again ≡ view_contents contents.now) }
{
    let _ = contents.list();
    one_reading();
    written_passes();
    match read_all(alloc, written, &OpenGate) {
        Ok(again) => Ok(again),
        Err(Stop::OutOfMemory) => Err(NoMemory),
        Err(Stop::Refused(_)) => unreachable!(),
        Err(Stop::Spent) => unreachable!(),
    }
}

/// The bytes of contents say by themselves which list they are of: a store keeps nothing else.
#[tactic(auto, using(crate::proofs::Again::said_by_bytes))]
pub fn is_said_by_its_bytes(contents: &Contents)
    ensures { list_in (spelling (view_contents contents.now)) ≡ Some (view_contents contents.now) }
{
    let _ = contents.list();
    finds_list();
}

/// The first fault of bytes that the store did not write, if they have one.
///
/// # Errors
///
/// `NoMemory` where memory ran out.
pub fn fault_of(alloc: Global, bytes: &[u8]) -> Result<Option<Refusal>, NoMemory>
    ensures { IfOk result (λ found. IfSome found (CarriesFirst (tree_gate open_gate) bytes.now)) }
{
    match read_all(alloc, bytes, &OpenGate) {
        Ok(_) => Ok(None),
        Err(Stop::Refused(refusal)) => Ok(Some(refusal)),
        Err(Stop::OutOfMemory) => Err(NoMemory),
        Err(Stop::Spent) => unreachable!(),
    }
}

/// Writes the contents, and reads them again.
///
/// # Errors
///
/// `NoMemory` where memory ran out.
pub fn write_and_read(alloc: Global, contents: &Contents) -> Result<Contents, NoMemory>
    ensures { IfOk result (λ again. view_contents again ≡ view_contents contents.now) }
{
    let mut page = Page {
        bytes: Vec::new(alloc),
        failed: false,
    };
    match encode(contents, &mut page) {
        Ok(_) => read_again(alloc, page.bytes.as_slice(), contents),
        Err(_) => Err(NoMemory),
    }
}
