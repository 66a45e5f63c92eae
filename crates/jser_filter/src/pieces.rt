//! The pieces of a filter's text, with an index that finds the first match of a name.
ghost use Rattle.std.specs.Prelude.{◌≡◌, ◌++◌, [], ◌∷◌, length, map, position, slice_get, option_map, false, IfOk, OnOk, OnErr, IfErr};
ghost use Rattle.std.specs.List.{list_any};
ghost use Rattle.jser_filter.specs.Cuts.{part_now};
ghost use Rattle.jser_filter.specs.Patterns.{package_of};
ghost use Rattle.jser_filter.specs.Pieces.{read_piece, view_piece, IsCauseOf};
ghost use Rattle.jser_filter.specs.Index.{AddsPlace, KeepsIndex};
ghost use Rattle.jser_filter.specs.Trie.{IsTrie};
ghost use Rattle.jser_filter.specs.Filters.{matches_piece, is_pattern, rejects, limits_of, limits_after, is_faulty};

use crate::fault::{FilterCause, FilterFault};
use crate::index::Index;
use crate::limit::Limits;
use crate::piece::Piece;
use std::alloc::{AllocError, Global};
use std::marker::Model;

/// The pieces in their order.
#[derive(Drop)]
pub(crate) struct Pieces {
    pieces: Vec<Piece>,
    index: Index,
    has_patterns: bool,
}

impl Model for Pieces {
    ghost use Rattle.std.specs.Prelude.{List, map};
    ghost use Rattle.jser_filter.specs.Pieces.{Piece, view_piece};

    ghost Value = { List Piece };

    ghost use Rattle.std.specs.Prelude.{◌≡◌};
    ghost use Rattle.std.specs.List.{list_any};
    ghost use Rattle.jser_filter.specs.Filters.{is_pattern};
    ghost use Rattle.jser_filter.specs.Index.{IsIndex};

    ghost view = { λ a. map view_piece a.pieces.items };

    ghost invariant = { λ a. IsIndex (map view_piece a.pieces.items) a.index × (a.has_patterns ≡ list_any is_pattern (map view_piece a.pieces.items)) };
}

impl Pieces {
    /// No pieces.
    pub(crate) fn new(alloc: Global) -> Result<Pieces, AllocError>
        ensures { IfOk result (λ pieces. pieces ≡ []) }
    {
        Ok(Pieces {
            pieces: Vec::new(alloc),
            index: Index::new(alloc)?,
            has_patterns: false,
        })
    }

    /// Adds what a piece of a text says, or tells what is wrong with it.
    #[tactic(auto, using(crate::proofs::FilterLemmas::view_piece_sound))]
    pub(crate) fn add(&mut self, alloc: Global, units: &[u16]) -> Result<(), FilterFault>
        ensures added { OnOk result (self.new ≡ self.old ++ read_piece units.now ∷ []) }
        ensures sound { OnOk result (is_faulty (read_piece units.now) ≡ false) }
        ensures pattern { IfErr result (λ fault. fault.pattern ≡ length self.old) }
        ensures cause { IfErr result (λ fault. IsCauseOf (read_piece units.now) fault.cause) }
    {
        let pattern = self.pieces.len();
        match Piece::read(alloc, units) {
            Ok(piece) => match self.push(alloc, piece) {
                Ok(()) => Ok(()),
                Err(_) => Err(FilterFault {
                    pattern,
                    cause: FilterCause::OutOfMemory,
                }),
            },
            Err(cause) => Err(FilterFault { pattern, cause }),
        }
    }

    /// The index of the first piece whose pattern matches the name, which is in this package, if in any, and in
    /// the module that was found, if in any.
    #[tactic(auto, using(crate::proofs::IndexLemmas::first_is))]
    pub(crate) fn first_match(
        &self,
        found: Option<&[u16]>,
        package: Option<&[u16]>,
        name: &[u16],
    ) -> Option<usize>
        requires { option_map part_now «package» ≡ package_of name.now }
        ensures { result ≡ position (matches_piece (option_map part_now found.entry) name.now) self.now }
    {
        self.index.first(found, package, name)
    }

    /// Whether some piece is a pattern. Where none is, none matches any name.
    pub(crate) fn has_patterns(&self) -> bool
        ensures { result ≡ list_any is_pattern self.now }
    {
        self.has_patterns
    }

    /// Whether the piece with this index is a rejecting pattern.
    pub(crate) fn rejects(&self, index: usize) -> bool
        ensures { result ≡ rejects (slice_get self.now index) }
    {
        rejects(&self.pieces, index)
    }

    /// The last value that the pieces give each limit.
    pub(crate) fn limits(&self) -> Limits
        ensures { result ≡ limits_of self.now }
    {
        limits_in(&self.pieces)
    }

    /// Adds a piece, and its place to the index.
    fn push(&mut self, alloc: Global, piece: Piece) -> Result<(), AllocError>
        ensures added { OnOk result (self.new ≡ self.old ++ view_piece piece ∷ []) }
        ensures kept { OnErr result (self.new ≡ self.old) }
    {
        self.pieces.reserve(1)?;
        let place = self.pieces.len();
        add_place(alloc, &mut self.index, &piece, place)?;
        self.has_patterns |= is_pattern(&piece);
        self.pieces.push_reserved(piece);
        Ok(())
    }
}

/// Adds the place of a piece to the index, if it is a pattern.
fn add_place(
    alloc: Global,
    index: &mut Index,
    piece: &Piece,
    place: usize,
) -> Result<(), AllocError>
    requires { IsTrie index.old.words }
    ensures ok { OnOk result (AddsPlace index.old index.new (view_piece piece.now) place) }
    ensures err { OnErr result (KeepsIndex index.old index.new) }
{
    match piece {
        Piece::Pattern(pattern) => index.add(alloc, pattern, place),
        Piece::Empty | Piece::Limit(..) => Ok(()),
    }
}

/// Whether a piece is a pattern.
fn is_pattern(piece: &Piece) -> bool
    ensures { result ≡ is_pattern (view_piece piece.now) }
{
    matches!(piece, Piece::Pattern(_))
}

/// Whether the piece with this index is a rejecting pattern.
fn rejects(pieces: &[Piece], index: usize) -> bool
    ensures { result ≡ rejects (slice_get (map view_piece pieces.now) index) }
{
    matches!(pieces.get(index), Some(Piece::Pattern(pattern)) if pattern.rejects)
}

/// The last value that the pieces give each limit.
fn limits_in(pieces: &[Piece]) -> Limits
    ensures { result ≡ limits_of (map view_piece pieces.now) }
{
    let mut limits = Limits::default();
    for piece in pieces {
        limits = limits_after(limits, piece);
    }
    limits
}

/// The limits after a piece.
fn limits_after(limits: Limits, piece: &Piece) -> Limits
    ensures { result ≡ limits_after limits (view_piece piece.now) }
{
    match piece {
        Piece::Limit(limit, value) => limits.with(*limit, *value),
        Piece::Empty | Piece::Pattern(_) => limits,
    }
}
