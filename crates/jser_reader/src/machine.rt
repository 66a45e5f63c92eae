//! The reader's machine: what is open, in few bytes, and the token that comes next.
//!
//! There is a frame for each array, object and descriptor that is open, so the depth is the length of the stack.
//! A handler of a token answers whether the machine goes on; where it has stopped, `stop` says why.

use crate::cut::Cut;
use crate::field_list::FieldList;
use crate::frame::{Frame, Owner, Role};
use crate::gate::Limits;
use crate::phase::{Phase, TextFor};
use crate::refusal::Stop;
use crate::stack::Stack;
use jser_prim::TextScan;
use jser_table::{KeptLayer, LayerKind, Table};
use std::alloc::Global;
use std::marker::Model;

mod classes;
mod descriptors;
mod ends;
mod fields;
pub(crate) mod flow;
pub(crate) mod items;
mod many;
mod names;
mod numbers;
mod owners;
mod parts;
pub(crate) mod pass;
pub(crate) mod passed;
mod rules;
mod states;
mod superclasses;
mod supers;
mod tags;
pub(crate) mod take;
mod texts;
mod values;
pub(crate) mod wholes;

/// What the reader holds but for its gate.
#[derive(Drop)]
pub(crate) struct Machine {
    alloc: Global,
    phase: Phase,
    /// How many bytes were taken.
    at: u64,
    /// Where the token starts that is open or comes next.
    from: u64,
    /// How many bytes of the raw token are left.
    left: u64,
    /// How many places there were.
    refs: u64,
    limits: Limits,
    frames: Stack,
    table: Table,
    /// What the class place belongs to.
    owner: Owner,
    /// The size of the elements of the array whose length comes next, where they are raw values.
    elements: Option<u8>,
    /// What the descriptor being read is for.
    role: Role,
    /// What its name says it is: an array class or another.
    kind: LayerKind,
    /// Its fields so far.
    fields: FieldList,
    /// Interfaces still to come (proxy only).
    interfaces: u32,
    /// The layer of the innermost descriptor that is open, and those of the others.
    layer: KeptLayer,
    outer: Vec<KeptLayer>,
    text: TextFor,
    scan: TextScan,
    /// The units so far of the name of a class or an interface that is being read.
    name: Vec<u16>,
    stop: Stop,
    /// The number that was cut, if one was.
    cut: Cut,
}

impl Model for Machine {
    ghost use Rattle.std.specs.Prelude.{◌∷◌, reverse};
    ghost use Rattle.jser_reader.specs.Readers.{Seen};
    ghost use Rattle.jser_reader.specs.Fitting.{AllFit, LayersFit};

    ghost Value = { Seen };

    ghost view = { λ a. record {
      meter = record { at = a.at; from = a.from; limits = record { bytes = a.limits.bytes; depth = a.limits.depth; refs = a.limits.refs; array = a.limits.array }; stop = a.stop; cut_phase = a.cut.phase; kept = a.cut.kept };
      phase = a.phase;
      frames = a.frames;
      layers = a.layer ∷ reverse a.outer.items;
      table = a.table;
      refs = a.refs;
      owner = a.owner;
      elements = a.elements;
      header = record { role = a.role; kind = a.kind; seen = a.fields.has_object; codes = a.fields.codes; fields = a.fields.left; interfaces = a.interfaces };
      text = a.text;
      left = a.left;
      scan = a.scan;
      name = a.name.items;
    } };

    ghost invariant = { λ a. AllFit a.table.entries a.table.chains a.frames × LayersFit a.outer.items a.frames };
}
