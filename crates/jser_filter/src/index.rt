//! The index of a filter's patterns: the first that matches a name is found without trying each.
ghost use Rattle.std.specs.Prelude.{◌≡◌, List, ℕ, None, OnOk, OnErr, IfOk, option_map};
ghost use Rattle.jser_filter.specs.Cuts.{part_now};
ghost use Rattle.jser_filter.specs.Index.{AddsPlace, KeepsIndex, first_by, first_in, first_inside};
ghost use Rattle.jser_filter.specs.Patterns.{package_of};
ghost use Rattle.jser_filter.specs.Pieces.{pattern_piece, view_pattern};
ghost use Rattle.jser_filter.specs.Places.{place_of};
ghost use Rattle.jser_filter.specs.Trie.{IsTrie, first_of};

use crate::pattern::NamePattern;
use crate::piece::Pattern;
use crate::places::Places;
use crate::trie::{Trie, least};
use crate::words::{add_front, add_in_module, first_along, first_in_module};
use std::alloc::{AllocError, Global};

/// Where patterns stand. Those in no module that are an exact name or `P.*` are found by hash maps, all others
/// by the words of a trie.
#[derive(Drop)]
pub(crate) struct Index {
    names: Places,
    packages: Places,
    words: Trie,
}

impl Index {
    /// The index of no patterns.
    pub(crate) fn new(alloc: Global) -> Result<Index, AllocError>
        ensures names { IfOk result (λ index. (name : List ℕ) → place_of index.names name ≡ None) }
        ensures packages { IfOk result (λ index. (name : List ℕ) → place_of index.packages name ≡ None) }
        ensures words { IfOk result (λ index. (letters : List ℕ) → first_of index.words letters ≡ None) }
        ensures is_trie { IfOk result (λ index. IsTrie index.words) }
    {
        Ok(Index {
            names: Places::new(alloc),
            packages: Places::new(alloc),
            words: Trie::new(alloc)?,
        })
    }

    /// Adds a pattern, at a place that is greater than all before.
    #[tactic(auto, using(crate::proofs::PackageLemmas::puts_dotted))]
    pub(crate) fn add(
        &mut self,
        alloc: Global,
        pattern: &Pattern,
        place: usize,
    ) -> Result<(), AllocError>
        requires { IsTrie self.old.words }
        ensures ok { OnOk result (AddsPlace self.old self.new (pattern_piece (view_pattern pattern.now)) place) }
        ensures err { OnErr result (KeepsIndex self.old self.new) }
    {
        match &pattern.in_module {
            Some(module) => {
                add_in_module(&mut self.words, module.as_slice(), &pattern.name, place)
            }
            None => match &pattern.name {
                NamePattern::Exact(units) => self.names.add(alloc, units.as_slice(), place),
                NamePattern::InPackage(package) => {
                    self.packages.add(alloc, package.as_slice(), place)
                }
                NamePattern::BelowPackage(front) | NamePattern::Prefix(front) => {
                    add_front(&mut self.words, front.as_slice(), place)
                }
            },
        }
    }

    /// The place of the first pattern that matches the name, which is in this package, if in any, and in the
    /// module that was found, if in any.
    pub(crate) fn first(
        &self,
        found: Option<&[u16]>,
        package: Option<&[u16]>,
        name: &[u16],
    ) -> Option<usize>
        requires { option_map part_now «package» ≡ package_of name.now }
        ensures { result ≡ first_by self.now (option_map part_now found.entry) (option_map part_now «package».entry) name.now }
    {
        let whole = least(self.names.get(name), self.first_inside(package));
        let begun = least(
            first_along(&self.words, name),
            self.first_in(found, package, name),
        );
        least(whole, begun)
    }

    /// The place of the first pattern `P.*` in no module for this package.
    fn first_inside(&self, package: Option<&[u16]>) -> Option<usize>
        ensures { result ≡ first_inside self.now.packages (option_map part_now «package».entry) }
    {
        match package {
            Some(package) => self.packages.get(package),
            None => None,
        }
    }

    /// The place of the first pattern in the module that was found.
    fn first_in(
        &self,
        found: Option<&[u16]>,
        package: Option<&[u16]>,
        name: &[u16],
    ) -> Option<usize>
        requires { option_map part_now «package» ≡ package_of name.now }
        ensures { result ≡ first_in self.now (option_map part_now found.entry) (option_map part_now «package».entry) name.now }
    {
        match found {
            Some(module) => first_in_module(&self.words, module, package, name),
            None => None,
        }
    }
}
