//! Filters: a text is read once into pieces, and the first pattern that matches a name decides.
ghost use Rattle.std.specs.Prelude.{List, ℕ, ◌≡◌, ◌≢◌, [], option_map, position, IfOk, IfErr};
ghost use Rattle.jser_table.specs.Names.{element, element_of, malformed_element};
ghost use Rattle.jser_prim.specs.ModifiedUtf8.{utf16_units};
ghost use Rattle.jser_filter.specs.Cuts.{part_now};
ghost use Rattle.jser_filter.specs.Patterns.{package_of};
ghost use Rattle.jser_filter.specs.Pieces.{pieces_of};
ghost use Rattle.jser_filter.specs.Filters.{IsFirstFault, AreSound, limits_of, matches_piece, verdict_of, verdict_by, verdict_at};

use crate::cut::{before_last, next_part};
use crate::fault::{FilterCause, FilterFault};
use crate::limit::Limits;
use crate::modules::Modules;
use crate::pattern::DOT;
use crate::pieces::Pieces;
use crate::verdict::Verdict;
use jser_prim::units_of;
use jser_table::{Element, element_of};
use std::alloc::Global;
use std::fmt;
use std::marker::Model;

/// A filter of class names and limits.
#[derive(Drop)]
pub struct Filter {
    pieces: Pieces,
    modules: Modules,
}

impl Model for Filter {
    ghost use Rattle.jser_filter.specs.Filters.{FilterView};

    ghost Value = { FilterView };

    ghost view = { λ a. record { pieces = a.pieces; modules = a.modules } };
}

/// Says that it is a filter, and not which.
impl fmt::Debug for Filter {
    fn fmt<W: fmt::Write>(&self, f: &mut fmt::Formatter<W>) -> fmt::Result {
        f.debug_struct("Filter").finish_non_exhaustive()
    }
}

const SEMICOLON: u16 = 0x3B;

impl Filter {
    /// Reads a filter's text. Its table of modules is empty.
    ///
    /// # Errors
    ///
    /// The first faulty piece, with the first of its causes. `OutOfMemory` is told at the piece for which memory
    /// ran out, and at piece 0 for what is made of the whole text; no earlier piece is faulty then.
    pub fn parse(alloc: Global, text: &str) -> Result<Filter, FilterFault>
        ensures pieces { IfOk result (λ filter. filter.pieces ≡ pieces_of (utf16_units text.now)) }
        ensures sound { IfOk result (λ filter. AreSound filter.pieces) }
        ensures modules { IfOk result (λ filter. filter.modules ≡ []) }
        ensures fault { IfErr result (IsFirstFault (pieces_of (utf16_units text.now))) }
    {
        let units = match units_of(alloc, text) {
            Ok(units) => units,
            Err(_) => return Err(no_memory_at_first()),
        };
        match read_pieces(alloc, &units) {
            Ok(pieces) => Ok(Filter {
                pieces,
                modules: Modules::none(alloc),
            }),
            Err(fault) => Err(fault),
        }
    }

    /// What the filter says of a name, which must not be malformed: a name is judged by its element. It
    /// allocates nothing, and its time grows with the name and not with the number of patterns.
    pub fn judge(&self, name: &[u16]) -> Verdict
        requires { element_of name.now ≢ malformed_element }
        ensures { result ≡ verdict_of self.now name.now }
    {
        match element_of(name) {
            Element::Name(class) => self.judge_class(class),
            Element::Primitive => Verdict::NoClass,
            Element::Malformed => unreachable!(),
        }
    }

    /// The last value that the text sets for each limit. It allocates nothing.
    pub fn limits(&self) -> Limits
        ensures { result ≡ limits_of self.now.pieces }
    {
        self.pieces.limits()
    }

    /// Puts this table of modules in place of the filter's own. It allocates nothing.
    pub fn with_modules(self, modules: Modules) -> Filter
        ensures pieces { result.pieces ≡ self.pieces }
        ensures modules { result.modules ≡ modules }
    {
        let Filter { pieces, modules: _ } = self;
        Filter { pieces, modules }
    }

    /// What the filter says of an element's name. Where it has no patterns, the name is not looked at.
    fn judge_class(&self, class: &[u16]) -> Verdict
        ensures { result ≡ verdict_by self.now (element class.now) }
    {
        if !self.pieces.has_patterns() {
            return Verdict::Undecided;
        }
        let package = before_last(class, DOT);
        let found = self.modules.of_package(package);
        judge_by(&self.pieces, found, package, class)
    }
}

/// What the pieces say of a name, which is in this package, if in any, and in the module that was found, if in
/// any.
fn judge_by(
    pieces: &Pieces,
    found: Option<&[u16]>,
    package: Option<&[u16]>,
    name: &[u16],
) -> Verdict
    requires { option_map part_now «package» ≡ package_of name.now }
    ensures { result ≡ verdict_at pieces.now (position (matches_piece (option_map part_now found.entry) name.now) pieces.now) }
{
    let Some(index) = pieces.first_match(found, package, name) else {
        return Verdict::Undecided;
    };
    if pieces.rejects(index) {
        Verdict::Rejected(index)
    } else {
        Verdict::Allowed(index)
    }
}

/// The fault where there is no memory for the text as a whole.
fn no_memory_at_first() -> FilterFault
    ensures { (text : List ℕ) → IsFirstFault (pieces_of text) result }
{
    FilterFault {
        pattern: 0,
        cause: FilterCause::OutOfMemory,
    }
}

/// Reads the pieces of a filter's text.
fn read_pieces(alloc: Global, units: &[u16]) -> Result<Pieces, FilterFault>
    ensures pieces { IfOk result (λ pieces. pieces ≡ pieces_of units.now) }
    ensures sound { IfOk result AreSound }
    ensures fault { IfErr result (IsFirstFault (pieces_of units.now)) }
{
    let Ok(mut pieces) = Pieces::new(alloc) else {
        return Err(no_memory_at_first());
    };
    let mut rest = Some(units);
    'pieces: while let Some(text) = rest {
        let (piece, more) = next_part(text, SEMICOLON);
        if let Err(fault) = pieces.add(alloc, piece) {
            return Err(fault);
        }
        rest = more;
    }
    Ok(pieces)
}
