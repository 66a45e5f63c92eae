//! Finds the nodes, owners and checked names of a stream, token by token.
ghost use Rattle.std.specs.Prelude.{◌≡◌, ◌<◌, ◌≤◌, true, false, length, OnOk};
ghost use Rattle.jser_reading.specs.TokenBytes.{bytes_of, tag_byte};
ghost use Rattle.jser_reading.specs.Labels.{StreamToken, Tag};
ghost use Rattle.jser_shown.specs.Finding.{begin_finding, begun_by, find, finished, make_begun, take_token, take_name};
ghost use Rattle.jser_shown.specs.Nodes.{place_after};
ghost use Rattle.jser_printer.specs.Given.{IsOf, view_nodes};
ghost use Rattle.jser_index.specs.Along.{Ends, IsLength, PartIs};
ghost use Rattle.jser_index.specs.Surveying.{IsPlain, IsQuiet};

use crate::begun::{Begun, elements_made, is_owner, kind_begun};
use crate::decode::decode;
use crate::node::small_number;
use crate::nodes::Nodes;
use crate::owners::Owners;
use crate::part::{Part, part_of};
use crate::texts::Texts;
use jser_grammar::wire::{TC_BLOCKDATA, TC_BLOCKDATALONG, TC_ENDBLOCKDATA, TC_RESET};
use jser_printer::{OwnerNode, Token};
use jser_reader::Item;
use std::alloc::{AllocError, Global};
use std::marker::Model;

mod wholes;

/// What was found so far.
///
/// It is told of each token how many handles of the epoch were assigned before it, which the reader knows: so it needs
/// no stack of what is open. A tag's node is made at the first token before which its handle is assigned.
#[derive(Drop)]
pub(crate) struct Survey {
    /// The place of the next token.
    place: u64,
    /// The tags whose nodes are not made yet, the last one last.
    begun: Vec<Begun>,
    nodes: Nodes,
    owners: Owners,
    /// The checked names, in the order of the stream.
    names: Texts,
    /// Whether the next text is a checked name, where it is no string.
    is_name: bool,
}

impl Model for Survey {
    ghost use Rattle.std.specs.Prelude.{map, reverse};
    ghost use Rattle.jser_shown.specs.Finding.{Finding};
    ghost use Rattle.jser_index.specs.Surveying.{view_begun};

    ghost Value = { Finding };

    ghost view = { λ a. record {
      place = a.place;
      begun = reverse (map view_begun a.begun.items);
      nodes = a.nodes.last;
      ended = a.nodes.ended;
      owners = a.owners;
      names = a.names;
      is_name = a.is_name;
    } };
}

impl Survey {
    /// Before the first token. Takes no memory.
    pub(crate) fn new(alloc: Global) -> Survey
        ensures { result ≡ begin_finding }
    {
        Survey {
            place: 0,
            begun: Vec::new(alloc),
            nodes: Nodes::new(alloc),
            owners: Owners::new(alloc),
            names: Texts::new(alloc),
            is_name: false,
        }
    }

    /// Makes the node of the last tag that has none yet, at this token.
    #[tactic(auto, using(crate::proofs::SurveyLemmas::begun_none, crate::proofs::SurveyLemmas::made_owner, crate::proofs::SurveyLemmas::made_other))]
    #[inline(always)]
    fn make(&mut self, token: Token<'_>) -> Result<(), AllocError>
        ensures { OnOk result ((told : StreamToken) → IsOf token.entry told → self.new ≡ make_begun told self.old.begun self.old) }
    {
        let Some(begun) = self.begun.pop() else {
            return Ok(());
        };
        let number = small_number(self.nodes.count())?;
        self.nodes.make(begun, token)?;
        if is_owner(begun.kind) {
            let elements = elements_made(begun.kind, token);
            self.owners
                .fill(begun.position, OwnerNode { number, elements });
        }
        Ok(())
    }

    /// Begins the node of a value's tag.
    #[tactic(auto, using(crate::proofs::SurveyLemmas::begins_none, crate::proofs::SurveyLemmas::begins_owner, crate::proofs::SurveyLemmas::begins_other))]
    #[inline(always)]
    fn begin(&mut self, tag: u8) -> Result<(), AllocError>
        ensures { OnOk result ((told : Tag) → tag ≡ tag_byte told → self.new ≡ begun_by told self.old) }
    {
        self.is_name = true;
        let Some(kind) = kind_begun(tag) else {
            return Ok(());
        };
        let position = self.owners.count();
        if is_owner(kind) {
            self.owners.begin()?;
        }
        let begun = Begun {
            kind,
            tag_byte: self.place,
            position,
        };
        self.begun.reserve(1)?;
        self.begun.push_reserved(begun);
        Ok(())
    }

    /// Goes past a token by itself, but for its place.
    #[inline(always)]
    fn take(&mut self, token: Token<'_>) -> Result<(), AllocError>
        ensures { OnOk result ((told : StreamToken) → IsOf token.entry told → self.new ≡ take_token told self.old) }
    {
        match token {
            Token::Tag(TC_RESET) => self.nodes.end()?,
            Token::Tag(TC_BLOCKDATA | TC_BLOCKDATALONG | TC_ENDBLOCKDATA) => (),
            Token::Tag(tag) => self.begin(tag)?,
            Token::InterfaceCount(_) => self.is_name = true,
            Token::TypeCode(_) => self.is_name = false,
            _ => (),
        }
        Ok(())
    }

    /// Adds a checked name, where the token is one. It is no string.
    #[inline(always)]
    fn take_name(&mut self, token: Token<'_>) -> Result<(), AllocError>
        ensures { OnOk result ((told : StreamToken) → IsOf token.entry told → self.new ≡ take_name false told self.old) }
    {
        match token {
            Token::Text(units) if self.is_name => self.names.add(units)?,
            _ => (),
        }
        Ok(())
    }

    /// Whether a node is to be made before the next token, since so many handles are assigned.
    #[inline(always)]
    fn is_due(&self, assigned: usize) -> bool
        ensures due { result ≡ true → length self.now.nodes < assigned }
        ensures made { result ≡ false → assigned ≤ length self.now.nodes }
    {
        self.nodes.count() < assigned
    }

    /// Makes the node of the last tag that has none yet, at a token that is neither a text nor the length of an array.
    #[inline(never)]
    fn make_plain(&mut self) -> Result<(), AllocError>
        ensures { OnOk result ((told : StreamToken) → IsPlain told → self.new ≡ make_begun told self.old.begun self.old) }
    {
        self.make(Token::ArrayLength(0))
    }

    /// Goes past a tag.
    #[tactic(auto, using(crate::proofs::SurveyLemmas::finds_made, crate::proofs::SurveyLemmas::finds_unmade, crate::proofs::SurveyLemmas::tag_plain, crate::proofs::SurveyLemmas::tag_no_name))]
    #[inline(always)]
    fn tag(&mut self, tag: u8, assigned: usize, end: u64) -> Result<(), AllocError>
        ensures finds { OnOk result ((told : StreamToken) → IsOf (Token.Tag tag) told → place_after self.old.place (bytes_of told) ≡ end
            → self.new ≡ find assigned told self.old) }
        ensures place { OnOk result (self.new.place ≡ end) }
    {
        if self.is_due(assigned) {
            self.make_plain()?;
        }
        self.take(Token::Tag(tag))?;
        self.place = end;
        Ok(())
    }

    /// Goes past a token with which nothing begins, and of which nothing is kept but where it ends: a handle, raw values or
    /// the bytes of a block.
    #[tactic(auto, using(crate::proofs::SurveyLemmas::passes_made, crate::proofs::SurveyLemmas::passes_unmade, crate::proofs::SurveyLemmas::quiet_plain))]
    #[inline(always)]
    fn pass(&mut self, assigned: usize, end: u64) -> Result<(), AllocError>
        ensures finds { OnOk result ((told : StreamToken) → IsQuiet told → place_after self.old.place (bytes_of told) ≡ end
            → self.new ≡ find assigned told self.old) }
        ensures place { OnOk result (self.new.place ≡ end) }
    {
        if self.is_due(assigned) {
            self.make_plain()?;
        }
        self.place = end;
        Ok(())
    }

    /// Goes past a token, which ends at this place of the stream; before it so many handles of the epoch were assigned.
    #[tactic(auto, using(crate::proofs::SurveyLemmas::finds_made, crate::proofs::SurveyLemmas::finds_unmade))]
    #[inline(always)]
    fn token(&mut self, token: Token<'_>, assigned: usize, end: u64) -> Result<(), AllocError>
        ensures finds { OnOk result ((told : StreamToken) → IsOf token.entry told → place_after self.old.place (bytes_of told) ≡ end
            → self.new ≡ find assigned told self.old) }
        ensures place { OnOk result (self.new.place ≡ end) }
    {
        if self.is_due(assigned) {
            self.make(token)?;
        } else {
            self.take_name(token)?;
        }
        self.take(token)?;
        self.place = end;
        Ok(())
    }

    /// Goes past an item that is seldom met.
    #[inline(never)]
    fn rare(
        &mut self,
        item: Item<'_>,
        units: &mut Vec<u16>,
        assigned: usize,
        end: u64,
    ) -> Result<(), AllocError>
        ensures finds { OnOk result ((told : StreamToken) → Ends item.entry told → place_after self.old.place (bytes_of told) ≡ end
            → self.new ≡ find assigned told self.old) }
        ensures same { OnOk result (IsLength item.entry → self.new ≡ self.old) }
        ensures place { OnOk result ((told : StreamToken) → Ends item.entry told → self.new.place ≡ end) }
    {
        match part_of(item) {
            Part::Token(token) => self.token(token, assigned, end),
            Part::Text(bytes) => self.text(bytes, units, assigned, end),
            Part::Length => Ok(()),
        }
    }

    /// Goes past a text, of which these are all bytes. `units` is room for its units.
    #[tactic(auto, using(crate::proofs::PartLemmas::decoded))]
    #[inline(always)]
    fn text(
        &mut self,
        bytes: &[u8],
        units: &mut Vec<u16>,
        assigned: usize,
        end: u64,
    ) -> Result<(), AllocError>
        ensures finds { OnOk result ((told : StreamToken) → PartIs (Part.Text bytes.entry) told → place_after self.old.place (bytes_of told) ≡ end
            → self.new ≡ find assigned told self.old) }
        ensures place { OnOk result (self.new.place ≡ end) }
    {
        let text = decode(bytes, units)?;
        self.token(Token::Text(text), assigned, end)?;
        Ok(())
    }

    /// Goes past an item, which ends at this place of the stream. `units` is room for those of a text.
    #[tactic(auto, using(crate::proofs::SurveyLemmas::handle_quiet, crate::proofs::SurveyLemmas::raw_quiet))]
    #[inline(always)]
    pub(crate) fn item(
        &mut self,
        item: Item<'_>,
        units: &mut Vec<u16>,
        assigned: usize,
        end: u64,
    ) -> Result<(), AllocError>
        ensures finds { OnOk result ((told : StreamToken) → Ends item.entry told → place_after self.old.place (bytes_of told) ≡ end
            → self.new ≡ find assigned told self.old) }
        ensures same { OnOk result (IsLength item.entry → self.new ≡ self.old) }
        ensures place { OnOk result ((told : StreamToken) → Ends item.entry told → self.new.place ≡ end) }
    {
        match item {
            Item::Tag(tag) => self.tag(tag, assigned, end),
            Item::Handle(_) => self.pass(assigned, end),
            Item::RawPart(_) => self.pass(assigned, end),
            Item::TextPart(bytes) => self.text(bytes, units, assigned, end),
            Item::TextLength(length) if length > 0 => Ok(()),
            item => self.rare(item, units, assigned, end),
        }
    }

    /// The end of the stream: the last node is made, if it is not.
    pub(crate) fn finish(&mut self) -> Result<(), AllocError>
        ensures { OnOk result (self.new ≡ finished self.old) }
    {
        self.make(Token::Header)
    }
}

/// What a walk has found, at its end.
#[derive(Drop)]
pub(crate) struct Finds {
    pub(crate) nodes: Nodes,
    pub(crate) owners: Vec<OwnerNode>,
    pub(crate) names: Texts,
}

impl Survey {
    /// What was found. Takes no memory.
    pub(crate) fn into_found(self) -> Finds
        ensures nodes { result.nodes ≡ record { ended = self.ended; last = self.nodes } }
        ensures owners { view_nodes result.owners.items ≡ self.owners }
        ensures names { result.names ≡ self.names }
    {
        let Survey {
            nodes,
            owners,
            names,
            ..
        } = self;
        Finds {
            nodes,
            owners: owners.into_vec(),
            names,
        }
    }
}
