//! A trie: words of letters, each with a place, and the least place of the words that begin a text.
//!
//! A node keeps the first edge that was made from it; one hash map has the other edges of all nodes. So a letter
//! costs a comparison, or a look-up where words part, whatever the number of words.
ghost use Rattle.std.specs.Prelude.{◌≡◌, ◌+◌, ◌<◌, ◌∷◌, [], List, ℕ, None, IfOk, length};
ghost use Rattle.jser_filter.specs.Trie.{Keeps, LeadsOn, IsTrie, Reaches, AddsWord, edge_of, first_of, least, mark_of, node_of, step, walk_along};
ghost use Rattle.jser_filter.specs.Words.{letter, letters};

use std::alloc::{AllocError, Global};
use std::collections::HashMap;

/// Words, each with a place.
#[derive(Drop)]
pub(crate) struct Trie {
    nodes: Vec<Node>,
    others: HashMap<(usize, u32), usize>,
}

/// A node: the place of the word that ends there, if one does, and the first edge from it.
#[derive(Clone, Copy)]
struct Node {
    mark: Option<usize>,
    first: Option<Edge>,
}

/// The node to which a letter leads.
#[derive(Clone, Copy)]
struct Edge {
    letter: u32,
    to: usize,
}

/// A new node.
const BLANK: Node = Node {
    mark: None,
    first: None,
};

/// How far the letters so far lead: the node, if the trie has it, and the least place met.
#[derive(Clone, Copy)]
pub(crate) struct Walk {
    node: Option<usize>,
    pub(crate) first: Option<usize>,
}

/// The node of the empty word.
pub(crate) const ROOT: usize = 0;

/// The letter of a unit. Odd numbers are the letters of no unit.
pub(crate) fn letter(unit: u16) -> u32
    ensures { result ≡ letter unit }
{
    u32::from(unit) + u32::from(unit)
}

/// The lesser of two places, if there is one.
pub(crate) fn least(one: Option<usize>, other: Option<usize>) -> Option<usize>
    ensures { result ≡ least one other }
{
    match (one, other) {
        (None, _) => other,
        (Some(_), None) => one,
        (Some(first), Some(second)) => { if second < first { other } else { one } }
    }
}

impl Trie {
    /// No words.
    #[tactic(auto, using(crate::proofs::TrieLemmas::empty_trie, crate::proofs::TrieLemmas::no_words))]
    pub(crate) fn new(alloc: Global) -> Result<Trie, AllocError>
        ensures is_trie { IfOk result IsTrie }
        ensures none { IfOk result (λ trie. (word : List ℕ) → first_of trie word ≡ None) }
    {
        let mut nodes = Vec::new(alloc);
        nodes.push(BLANK)?;
        Ok(Trie {
            nodes,
            others: HashMap::new(alloc),
        })
    }

    /// The node to which a letter leads.
    fn child(&self, node: usize, letter: u32) -> Option<usize>
        ensures { result ≡ edge_of self.now node letter }
    {
        match self.node_at(node).first {
            Some(edge) if edge.letter == letter => Some(edge.to),
            _ => self.others.get(&(node, letter)).copied(),
        }
    }

    /// What is kept of a node, or a new node where there is none of this number.
    fn node_at(&self, node: usize) -> Node
        ensures { result ≡ node_of self.now node }
    {
        match self.nodes.get(node) {
            Some(kept) => *kept,
            None => BLANK,
        }
    }

    /// Goes from a node along a letter, and makes the next node where there is none.
    #[tactic(auto, using(crate::proofs::TrieLemmas::leads_there))]
    pub(crate) fn extend(&mut self, node: usize, letter: u32) -> Result<usize, AllocError>
        requires is_trie { IsTrie self.old }
        requires inside { node < length self.old.nodes.items }
        ensures keeps { Keeps self.old self.new }
        ensures leads { IfOk result (LeadsOn self.old self.new node (letter ∷ [])) }
    {
        match self.child(node, letter) {
            Some(next) => Ok(next),
            None => self.grow(node, letter),
        }
    }

    /// Makes the node to which a letter leads.
    fn grow(&mut self, node: usize, letter: u32) -> Result<usize, AllocError>
        requires is_trie { IsTrie self.old }
        requires inside { node < length self.old.nodes.items }
        requires free { edge_of self.old node letter ≡ None }
        ensures keeps { Keeps self.old self.new }
        ensures leads { IfOk result (LeadsOn self.old self.new node (letter ∷ [])) }
    {
        match self.node_at(node).first {
            None => self.grow_first(node, letter),
            Some(_) => self.grow_other(node, letter),
        }
    }

    /// Makes the first edge from a node.
    fn grow_first(&mut self, node: usize, letter: u32) -> Result<usize, AllocError>
        requires is_trie { IsTrie self.old }
        requires inside { node < length self.old.nodes.items }
        requires free { edge_of self.old node letter ≡ None }
        requires first { (node_of self.old node).first ≡ None }
        ensures keeps { Keeps self.old self.new }
        ensures leads { IfOk result (LeadsOn self.old self.new node (letter ∷ [])) }
    {
        self.nodes.reserve(1)?;
        let to = self.nodes.len();
        let mark = self.node_at(node).mark;
        self.nodes[node] = Node {
            mark,
            first: Some(Edge { letter, to }),
        };
        self.nodes.push_reserved(BLANK);
        Ok(to)
    }

    /// Makes another edge from a node.
    fn grow_other(&mut self, node: usize, letter: u32) -> Result<usize, AllocError>
        requires is_trie { IsTrie self.old }
        requires inside { node < length self.old.nodes.items }
        requires free { edge_of self.old node letter ≡ None }
        ensures keeps { Keeps self.old self.new }
        ensures leads { IfOk result (LeadsOn self.old self.new node (letter ∷ [])) }
    {
        self.nodes.reserve(1)?;
        let to = self.nodes.len();
        self.others.insert((node, letter), to)?;
        self.nodes.push_reserved(BLANK);
        Ok(to)
    }

    /// Marks the node at the end of a word with a place, unless it has a lesser one.
    #[tactic(auto, using(crate::proofs::TrieLemmas::marked_word))]
    pub(crate) fn mark(&mut self, node: usize, place: usize)
        requires is_trie { IsTrie self.old }
        requires inside { node < length self.old.nodes.items }
        ensures { (word : List ℕ) → Reaches self.old word node → AddsWord self.old self.new word place }
    {
        let kept = self.node_at(node);
        self.nodes[node] = Node {
            mark: least(kept.mark, Some(place)),
            first: kept.first,
        };
    }

    /// The walk along no letters.
    pub(crate) fn start(&self) -> Walk
        ensures { result ≡ record { node = Some 0; first = mark_of self.now 0 } }
    {
        Walk {
            node: Some(ROOT),
            first: self.node_at(ROOT).mark,
        }
    }

    /// One letter further.
    pub(crate) fn step(&self, walk: Walk, letter: u32) -> Walk
        ensures { result ≡ step (edge_of self.now) (mark_of self.now) walk letter }
    {
        let Some(node) = walk.node else {
            return walk;
        };
        match self.child(node, letter) {
            None => Walk {
                node: None,
                first: walk.first,
            },
            Some(next) => Walk {
                node: Some(next),
                first: least(walk.first, self.node_at(next).mark),
            },
        }
    }

    /// The letters of some units further.
    #[tactic(auto, using(crate::proofs::TreeLemmas::walk_ended))]
    pub(crate) fn along(&self, walk: Walk, units: &[u16]) -> Walk
        ensures { result ≡ walk_along (edge_of self.now) (mark_of self.now) walk (letters units.now) }
    {
        let mut walk = walk;
        'units: for unit in units {
            if walk.node.is_none() {
                return walk;
            }
            walk = self.step(walk, letter(*unit));
        }
        walk
    }
}
