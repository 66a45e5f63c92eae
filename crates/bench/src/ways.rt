//! What may be done to a stream.

use crate::page::Page;
use anyhow::{Result, bail};
use jser_graph::Graph;
use jser_reader::{OpenGate, Reader, Step, Stop};
use jser_trees::read_all;
use std::alloc::Global;

/// How many bytes a piece has at most.
const PIECE: usize = 65_536;

/// What is done to a stream.
#[derive(Clone, Copy, PartialEq, Eq)]
pub enum Way {
    /// It is copied.
    Copy,
    /// A reader takes it item by item.
    Next,
    /// A reader takes it piece by piece.
    Skip,
    /// It becomes a tree, which is let go again.
    Tree,
    /// It becomes a graph.
    Graph,
    /// The text of its graph is written.
    Text,
}

/// Each way, by the word that names it.
pub const WAYS: [(&str, Way); 6] = [
    ("copy", Way::Copy),
    ("next", Way::Next),
    ("skip", Way::Skip),
    ("tree", Way::Tree),
    ("graph", Way::Graph),
    ("text", Way::Text),
];

/// The graph of a stream, where this way begins with one.
pub fn prepare(alloc: Global, stream: &[u8], way: Way) -> Result<Option<Graph>> {
    if way != Way::Text {
        return Ok(None);
    }
    match Graph::read(alloc, stream) {
        Ok(graph) => Ok(Some(graph)),
        Err(stop) => bail!("no graph: {stop:?}"),
    }
}

/// Does this once. The answer is how many bytes were read, or written where a text is; none where the stream is deeper
/// than trees may be.
pub fn run(alloc: Global, stream: &[u8], graph: Option<&Graph>, way: Way) -> Result<Option<u64>> {
    let answer = match way {
        Way::Copy => return copy(alloc, stream),
        Way::Next => read_items(alloc, stream),
        Way::Skip => read_pieces(alloc, stream),
        Way::Tree => read_all(alloc, stream, &OpenGate).map(|_| ()),
        Way::Graph => Graph::read(alloc, stream).map(|_| ()),
        Way::Text => return write_text(alloc, graph),
    };
    match answer {
        Ok(()) => Ok(Some(stream.len() as u64)),
        Err(Stop::Refused(_)) if way == Way::Tree => Ok(None),
        Err(stop) => bail!("the stream was not read: {stop:?}"),
    }
}

/// Copies the bytes.
fn copy(alloc: Global, stream: &[u8]) -> Result<Option<u64>> {
    let copy = stream.to_vec(alloc)?;
    Ok(Some(copy.len() as u64))
}

/// Writes the text of a graph.
fn write_text(alloc: Global, graph: Option<&Graph>) -> Result<Option<u64>> {
    let Some(graph) = graph else {
        bail!("a text is that of a graph");
    };
    let mut page = Page::new(alloc)?;
    match graph.show(alloc, &mut page) {
        Ok(length) => Ok(Some(length)),
        Err(fault) => bail!("no text: {fault:?}"),
    }
}

/// Reads a stream piece by piece.
fn read_pieces(alloc: Global, stream: &[u8]) -> Result<(), Stop> {
    let mut reader = Reader::new(alloc, OpenGate);
    skip_pieces(&mut reader, stream)?;
    reader.finish().map(|_| ())
}

/// Takes the pieces of a stream, each as one.
fn skip_pieces(reader: &mut Reader<OpenGate>, stream: &[u8]) -> Result<(), Stop> {
    for piece in stream.chunks(PIECE) {
        reader.skip(piece)?;
    }
    Ok(())
}

/// Reads a stream item by item.
fn read_items(alloc: Global, stream: &[u8]) -> Result<(), Stop> {
    let mut reader = Reader::new(alloc, OpenGate);
    take_pieces(&mut reader, stream)?;
    reader.finish().map(|_| ())
}

/// Takes the pieces of a stream, each item by item.
fn take_pieces(reader: &mut Reader<OpenGate>, stream: &[u8]) -> Result<(), Stop> {
    for piece in stream.chunks(PIECE) {
        take_items(reader, piece)?;
    }
    Ok(())
}

/// Takes a piece item by item.
fn take_items(reader: &mut Reader<OpenGate>, piece: &[u8]) -> Result<(), Stop> {
    let mut rest = piece;
    'items: while !rest.is_empty() {
        match reader.next(rest)? {
            Step::More => return Ok(()),
            Step::Item { used, .. } => {
                let (_, others) = rest.split_at(used);
                rest = others;
            }
        }
    }
    Ok(())
}
