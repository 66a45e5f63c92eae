//! Patterns and names as words of a trie.
ghost use Rattle.std.specs.Prelude.{◌≡◌, ◌<◌, ◌++◌, ◌∷◌, [], length, Some, OnOk, OnErr, IfOk, option_map};
ghost use Rattle.jser_filter.specs.Cuts.{part_now};
ghost use Rattle.jser_filter.specs.Patterns.{package_of, view_name};
ghost use Rattle.jser_filter.specs.Index.{first_in_module};
ghost use Rattle.jser_filter.specs.Trie.{AddsWord, IsTrie, Keeps, LeadsOn, edge_of, first_of, mark_of, walk_along};
ghost use Rattle.jser_filter.specs.Words.{in_module, letter, letters, name_word, of_end, of_module, of_name, of_package};

use crate::pattern::{DOT, NamePattern};
use crate::trie::{ROOT, Trie, Walk, least, letter};
use std::alloc::AllocError;

/// The letter in front of a module.
const OF_MODULE: u32 = 1;

/// The letter after a module, in front of a name in it.
const OF_NAME: u32 = 3;

/// The letter after a whole name.
const OF_END: u32 = 5;

/// The letter after a package and its `.`.
const OF_PACKAGE: u32 = 7;

/// Adds the word of a pattern in no module that is `P.**` or `X*`.
pub(crate) fn add_front(trie: &mut Trie, front: &[u16], place: usize) -> Result<(), AllocError>
    requires { IsTrie trie.old }
    ensures ok { OnOk result (AddsWord trie.old trie.new (letters front.now) place) }
    ensures err { OnErr result (Keeps trie.old trie.new) }
{
    let node = extend_along(trie, ROOT, front)?;
    trie.mark(node, place);
    Ok(())
}

/// Adds the word of a pattern in a module.
#[tactic(auto, using(crate::proofs::WordLemmas::keeps_on))]
pub(crate) fn add_in_module(
    trie: &mut Trie,
    module: &[u16],
    name: &NamePattern,
    place: usize,
) -> Result<(), AllocError>
    requires { IsTrie trie.old }
    ensures ok { OnOk result (AddsWord trie.old trie.new (in_module «module».now (name_word (view_name name.now))) place) }
    ensures err { OnErr result (Keeps trie.old trie.new) }
{
    let module = extend_module(trie, module)?;
    let node = extend_name(trie, module, name)?;
    trie.mark(node, place);
    Ok(())
}

/// Goes from the root to the names in a module.
fn extend_module(trie: &mut Trie, module: &[u16]) -> Result<usize, AllocError>
    requires { IsTrie trie.old }
    ensures keeps { Keeps trie.old trie.new }
    ensures leads { IfOk result (LeadsOn trie.old trie.new 0 (of_module ∷ (letters «module».now ++ of_name ∷ []))) }
{
    let front = trie.extend(ROOT, OF_MODULE)?;
    let after = extend_along(trie, front, module)?;
    trie.extend(after, OF_NAME)
}

/// Goes from a node along the word of a name pattern.
fn extend_name(trie: &mut Trie, node: usize, name: &NamePattern) -> Result<usize, AllocError>
    requires is_trie { IsTrie trie.old }
    requires inside { node < length trie.old.nodes.items }
    ensures keeps { Keeps trie.old trie.new }
    ensures leads { IfOk result (LeadsOn trie.old trie.new node (name_word (view_name name.now))) }
{
    match name {
        NamePattern::BelowPackage(front) | NamePattern::Prefix(front) => {
            extend_along(trie, node, front.as_slice())
        }
        NamePattern::InPackage(package) => {
            let after = extend_along(trie, node, package.as_slice())?;
            let inside = trie.extend(after, letter(DOT))?;
            trie.extend(inside, OF_PACKAGE)
        }
        NamePattern::Exact(units) => {
            let after = extend_along(trie, node, units.as_slice())?;
            trie.extend(after, OF_END)
        }
    }
}

/// Goes from a node along some units, and makes the nodes that are not there.
#[tactic(auto, using(crate::proofs::WordLemmas::gone_on, crate::proofs::WordLemmas::leads_nowhere))]
fn extend_along(trie: &mut Trie, node: usize, units: &[u16]) -> Result<usize, AllocError>
    requires is_trie { IsTrie trie.old }
    requires inside { node < length trie.old.nodes.items }
    ensures keeps { Keeps trie.old trie.new }
    ensures leads { IfOk result (LeadsOn trie.old trie.new node (letters units.now)) }
{
    let mut at = node;
    'units: for unit in units {
        match trie.extend(at, letter(*unit)) {
            Ok(next) => at = next,
            Err(error) => return Err(error),
        }
    }
    Ok(at)
}

/// The least place of a word that begins a name.
#[tactic(auto, using(crate::proofs::WordLemmas::walk_is_first))]
pub(crate) fn first_along(trie: &Trie, name: &[u16]) -> Option<usize>
    ensures { result ≡ first_of trie.now (letters name.now) }
{
    trie.along(trie.start(), name).first
}

/// The least place of a word in a module that begins a name there. The name is walked once: from its package
/// one letter leads aside, to the patterns of that package.
#[tactic(auto, using(crate::proofs::WordLemmas::package_within))]
pub(crate) fn first_in_module(
    trie: &Trie,
    module: &[u16],
    package: Option<&[u16]>,
    name: &[u16],
) -> Option<usize>
    requires { option_map part_now «package» ≡ package_of name.now }
    ensures { result ≡ first_in_module trie.now «module».now (option_map part_now «package».entry) name.now }
{
    let in_module = into_module(trie, module);
    match package {
        None => first_of_name(trie, in_module, name),
        Some(package) => {
            let (_, rest) = name.split_at(package.len());
            let in_package = trie.along(in_module, package);
            least(
                first_of_package(trie, in_package),
                first_of_name(trie, in_package, rest),
            )
        }
    }
}

/// The least place met on the way to the end of a name, of which these units are left.
#[tactic(auto, using(crate::proofs::WordLemmas::walk_name))]
fn first_of_name(trie: &Trie, walk: Walk, rest: &[u16]) -> Option<usize>
    ensures { result ≡ (walk_along (edge_of trie.now) (mark_of trie.now) walk (letters rest.now ++ of_end ∷ [])).first }
{
    trie.step(trie.along(walk, rest), OF_END).first
}

/// The least place met on the way to the patterns `P.*` of the package whose units were walked.
fn first_of_package(trie: &Trie, walk: Walk) -> Option<usize>
    ensures { result ≡ (walk_along (edge_of trie.now) (mark_of trie.now) walk (letter 0x2E ∷ of_package ∷ [])).first }
{
    trie.step(trie.step(walk, letter(DOT)), OF_PACKAGE).first
}

/// The walk to the names in a module.
#[tactic(auto, using(crate::proofs::WordLemmas::walk_into))]
fn into_module(trie: &Trie, module: &[u16]) -> Walk
    ensures { result ≡ walk_along (edge_of trie.now) (mark_of trie.now) record { node = Some 0; first = mark_of trie.now 0 } (of_module ∷ (letters «module».now ++ of_name ∷ [])) }
{
    let front = trie.step(trie.start(), OF_MODULE);
    trie.step(trie.along(front, module), OF_NAME)
}
