//! Bytes to trees.
ghost use Rattle.std.specs.Prelude.{IfOk, IfErr, ◌≡◌, ◌≤◌, [], length};
ghost use Rattle.jser_grammar.specs.Streams.{IsStreamOf};
ghost use Rattle.jser_grammar.specs.Caps.{most_tree_bytes};
ghost use Rattle.jser_value.specs.View.{view_contents};
ghost use Rattle.jser_verdict.specs.Passing.{Passes};
ghost use Rattle.jser_reader.specs.ReaderStates.{StandsFor};
ghost use Rattle.jser_reader.specs.Answers.{Tells};
ghost use Rattle.jser_trees.specs.Answers.{tree_gate, IfRefused, Refuses, CarriesFirst, IsTreeStream};
ghost use Rattle.jser_trees.specs.Building.{list_in};
ghost use Rattle.jser_trees.specs.Found.{FindsAll};

use crate::cursor::{Cursor, Fault};
use crate::gate::TreeGate;
use crate::values::contents;
use jser_reader::{Gate, Reader, Stop, Totals};
use jser_value::{Content, Contents};
use std::alloc::Global;

/// Reads bytes that are one stream which the gate passes, as the list of its contents.
///
/// The gate is the caller's with its limits lowered to those of trees: 2^31 - 1 bytes, and depth 1,000. What it
/// allocates is the list, and besides what a reader does: the table of handles, the stack of what is open, and the class
/// name that is being read.
///
/// # Errors
///
/// `Refused` where the bytes are no stream that passes, with the first fault. `OutOfMemory` where memory ran out. Never
/// `Spent`.
pub fn read_all<G: Gate>(alloc: Global, bytes: &[u8], gate: &G) -> Result<Contents, Stop>
    ensures accepted { IfOk result (λ contents. Passes (tree_gate (G.told gate.now)) bytes.now (view_contents contents)) }
    ensures refused { IfErr result (IfRefused (Refuses (tree_gate (G.told gate.now)) bytes.now)) }
    ensures first { IfErr result (IfRefused (CarriesFirst (tree_gate (G.told gate.now)) bytes.now)) }
{
    match check_under(alloc, bytes, TreeGate::new(gate)) {
        Ok(_) => match tree_of(alloc, bytes) {
            Ok(contents) => Ok(contents),
            Err(_) => Err(Stop::OutOfMemory),
        },
        Err(stop) => Err(stop),
    }
}

/// Checks bytes under any gate.
fn check_under<G: Gate + Drop>(alloc: Global, bytes: &[u8], gate: G) -> Result<Totals, Stop>
    ensures { Tells (G.told gate) bytes.now result }
{
    let mut reader = Reader::new(alloc, gate);
    read_to_end(&mut reader, bytes)
}

/// Reads bytes to their end, with a reader that has taken none.
fn read_to_end<G: Gate>(reader: &mut Reader<G>, bytes: &[u8]) -> Result<Totals, Stop>
    requires { StandsFor (G.told reader.old.gate) [] reader.old.machine reader.old.tally }
    ensures { Tells (G.told reader.old.gate) bytes.now result }
{
    match reader.skip(bytes) {
        Ok(()) => reader.finish(),
        Err(stop) => Err(stop),
    }
}

/// There was no memory for the tree.
#[derive(Clone, Copy)]
struct OutOfMemory;

/// The contents of a stream within the caps of trees.
fn tree_of(alloc: Global, bytes: &[u8]) -> Result<Contents, OutOfMemory>
    requires { IsTreeStream bytes.now }
    ensures { IfOk result (λ contents. IsStreamOf bytes.now (view_contents contents)) }
{
    match list_of(alloc, bytes) {
        Ok(list) => Ok(Contents::from_obeying(list)),
        Err(Fault::OutOfMemory) => Err(OutOfMemory),
        Err(Fault::Lost) => unreachable!(),
    }
}

/// The list of contents behind the header.
#[tactic(auto, unfolding(crate::specs::Building::list_in))]
fn list_of(alloc: Global, bytes: &[u8]) -> Result<Vec<Content>, Fault>
    requires { length bytes.now ≤ most_tree_bytes }
    ensures { FindsAll (λ list. view_contents list.items) result (list_in bytes.now) }
{
    let mut cursor = Cursor::new(bytes);
    cursor.take(4)?;
    contents(alloc, &mut cursor)
}
