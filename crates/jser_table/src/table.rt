//! The table of handles of one epoch: a list of entries in the order of their handles.
//!
//! Each entry takes four bytes. What only descriptors need lies apart, and its room is reserved when a
//! descriptor's handle is assigned, so closing a descriptor takes no memory.
ghost use Rattle.std.specs.Prelude.{◌≡◌, ◌≢◌, ◌<◌, ◌≤◌, ◌↔◌, [], ◌∷◌, ◌++◌, length, map, slice_get, slice_set, is_some, Some, None, IsTrue, IfOk, IfSome, OnErr, option_map};
ghost use Rattle.std.specs.Option.{ForSome, option_copied};
ghost use Rattle.jser_table.specs.Chains.{own_layer, all_serial, next_filled, is_external, elements_of, chain_in};
ghost use Rattle.jser_table.specs.Codes.{size_of, primitive_codes};
ghost use Rattle.jser_table.specs.Sections.{HasSection, layer_of, HoldsFor, IsOn, IsNext, AreSections};
ghost use Rattle.jser_table.specs.Entries.{is_text, is_pending, is_closed, chain_at};
ghost use Rattle.jser_table.specs.Fits.{fit_of};
ghost use Rattle.jser_table.specs.Lines.{line_in, next_line, number_at, parent_number, answered_number};
ghost use Rattle.jser_table.specs.Tables.{Assigns, closed_under, is_text_entry, is_pending_entry, is_closed_entry, is_text_kept, is_pending_kept, is_closed_kept, is_closed_slot, closed_kept, parent_chain, IsClass, IsNumberOf, text_of};

use crate::chains::Chains;
use crate::class::{ChainNumber, Class};
use crate::entry::{Closed, Entry, Kept, Kind, Slot};
use crate::kept::KeptLayer;
use crate::layer::{Fit, Layer, Purpose};
use crate::section::{Section, SectionNumber, Sections};
use std::alloc::Global;
use std::error::Error;
use std::fmt;
use std::marker::Model;

/// Why a handle was not assigned. The table is as it was.
#[derive(Clone, Copy, PartialEq, Eq, Debug)]
pub enum TableFault {
    /// The table has as many entries as it may have.
    Full,
    /// There was no memory for one more.
    OutOfMemory,
}

impl fmt::Display for TableFault {
    ghost output = { λ fault. Some (text_of fault) };

    fn fmt<W: fmt::Write>(&self, f: &mut fmt::Formatter<W>) -> fmt::Result {
        match self {
            TableFault::Full => write!(f, "the table of handles is full"),
            TableFault::OutOfMemory => write!(f, "out of memory"),
        }
    }
}

impl Error for TableFault {}

/// The entries of one epoch, in the order of their handles.
#[derive(Drop)]
pub struct Table {
    entries: Vec<Slot>,
    chains: Chains,
    /// How many entries are pending: the room that `chains` owes.
    pending: u32,
    max: u32,
}

impl Model for Table {
    ghost use Rattle.std.specs.Prelude.{map};
    ghost use Rattle.jser_table.specs.Tables.{TableView};

    ghost Value = { TableView };

    ghost use Rattle.jser_table.specs.Tables.{view_entry, kept_number, IsSound};

    ghost view = { λ a. record {
      entries = map (view_entry a.chains.listed) a.entries.items;
      chains = a.chains.listed;
      numbers = map kept_number a.entries.items;
      lines = a.chains.lines;
      max = a.max;
    } };

    ghost invariant = { λ a. IsSound a.entries.items a.chains a.pending a.max };
}

/// Says how many entries there are and may be, and not which.
impl fmt::Debug for Table {
    fn fmt<W: fmt::Write>(&self, f: &mut fmt::Formatter<W>) -> fmt::Result {
        f.debug_struct("Table")
            .field("count", &self.entries.len())
            .field("max", &self.max)
            .finish_non_exhaustive()
    }
}

/// What callers see of what a slot keeps.
fn entry_of(kept: Kept) -> &'static Entry
    ensures text { is_text_entry (Some result.now) ≡ is_text_kept kept }
    ensures pending { is_pending_entry (Some result.now) ≡ is_pending_kept kept }
    ensures closed { is_closed_entry (Some result.now) ≡ is_closed_kept kept }
{
    match kept {
        Kept::Text => &Entry::Text,
        Kept::Other => &Entry::Other,
        Kept::Pending => &Entry::Pending,
        Kept::Closed(_) => &Entry::Closed(Closed { nothing: () }),
    }
}

impl Table {
    /// A table with no entries, which may have up to `max`. Takes no memory.
    pub fn new(alloc: Global, max: u32) -> Table
        ensures entries { result.entries ≡ [] }
        ensures chains { result.chains ≡ [] }
        ensures numbers { result.numbers ≡ [] }
        ensures lines { result.lines ≡ [] }
        ensures max { result.max ≡ max }
    {
        Table {
            entries: Vec::new(alloc),
            chains: Chains::new(alloc),
            pending: 0,
            max,
        }
    }

    /// Adds an entry and gives its number, counted from 0.
    ///
    /// # Errors
    ///
    /// `TableFault::Full` where the table has as many entries as it may have, and `TableFault::OutOfMemory`
    /// where memory ran out. The table is then as it was.
    #[tactic(auto, using(crate::proofs::TableLemmas::entries_assign, crate::proofs::TableLemmas::numbers_assign))]
    #[inline(always)]
    pub fn assign(&mut self, kind: Kind) -> Result<u32, TableFault>
        ensures { Assigns kind result self.old self.new }
    {
        if kind == Kind::Pending {
            return self.assign_any(kind);
        }
        let number = self.entries.len();
        if number >= self.entries.capacity().min(self.max as usize) {
            return self.assign_out_of_line(kind);
        }
        self.entries.push_reserved(Slot::new(kind));
        Ok(number as u32)
    }

    /// Adds any entry and gives its number, also where memory is asked for or the table is full.
    fn assign_any(&mut self, kind: Kind) -> Result<u32, TableFault>
        ensures { Assigns kind result self.old self.new }
    {
        let number = self.entries.len();
        if number >= self.max as usize {
            return Err(TableFault::Full);
        }
        if kind == Kind::Pending && self.chains.reserve(self.pending as usize + 1).is_err() {
            return Err(TableFault::OutOfMemory);
        }
        if self.entries.push(Slot::new(kind)).is_err() {
            return Err(TableFault::OutOfMemory);
        }
        if kind == Kind::Pending {
            self.pending += 1;
        }
        Ok(number as u32)
    }

    /// Adds an entry and gives its number, out of line: mostly there is room.
    #[inline(never)]
    fn assign_out_of_line(&mut self, kind: Kind) -> Result<u32, TableFault>
        ensures { Assigns kind result self.old self.new }
    {
        self.assign_any(kind)
    }

    /// How many entries there are.
    pub fn count(&self) -> u32
        ensures { result ≡ length self.now.entries }
    {
        self.entries.len() as u32
    }

    /// How many classes are closed: the number of the class that is closed next.
    pub fn classes(&self) -> u32
        ensures chains { result ≡ length self.now.chains }
        ensures lines { result ≡ length self.now.lines }
    {
        self.chains.count()
    }

    /// Closes a pending entry: it has this layer over the chain of the parent, if there is one. It asks nothing of the
    /// layer; that `Codes::new` takes at most 32,767 codes is the format's own bound. Takes no memory.
    pub fn close(&mut self, number: u32, layer: Layer, parent: Option<u32>)
        requires pending { IsTrue (is_pending (slice_get self.old.entries number)) }
        requires parent { ForSome parent (λ p. IsTrue (is_closed (slice_get self.old.entries p))) }
        ensures closed { self.new.entries ≡ slice_set self.old.entries number (closed_under self.old.entries parent layer) }
        ensures chains { self.new.chains ≡ self.old.chains ++ (parent_chain self.old.entries parent ++ layer ∷ []) ∷ [] }
        ensures number { number_at self.new.numbers number ≡ Some (length self.old.chains) }
        ensures numbers { self.new.numbers ≡ slice_set self.old.numbers number (Some (length self.old.chains)) }
        ensures lines { self.new.lines ≡ self.old.lines ++ next_line self.old.lines (parent_number self.old.numbers parent) ∷ [] }
        ensures max { self.new.max ≡ self.old.max }
    {
        self.close_kept(number, KeptLayer::new(layer), parent);
    }

    /// Closes a pending entry with a layer in the form in which it is kept. Takes no memory.
    pub fn close_kept(&mut self, number: u32, layer: KeptLayer, parent: Option<u32>)
        requires pending { IsTrue (is_pending (slice_get self.old.entries number)) }
        requires parent { ForSome parent (λ p. IsTrue (is_closed (slice_get self.old.entries p))) }
        ensures closed { self.new.entries ≡ slice_set self.old.entries number (closed_under self.old.entries parent layer) }
        ensures chains { self.new.chains ≡ self.old.chains ++ (parent_chain self.old.entries parent ++ layer ∷ []) ∷ [] }
        ensures number { number_at self.new.numbers number ≡ Some (length self.old.chains) }
        ensures numbers { self.new.numbers ≡ slice_set self.old.numbers number (Some (length self.old.chains)) }
        ensures lines { self.new.lines ≡ self.old.lines ++ next_line self.old.lines (parent_number self.old.numbers parent) ∷ [] }
        ensures max { self.new.max ≡ self.old.max }
    {
        let parent = parent_chain_number(&self.entries, parent);
        let chain = self.chains.add(layer, parent);
        self.entries[number as usize] = Slot::closed(chain);
        self.pending -= 1;
    }

    /// The entry with this number, if there is one.
    pub fn get(&self, number: u32) -> Option<&Entry>
        ensures present { is_some result ≡ is_some (slice_get self.now.entries number) }
        ensures text { is_text_entry (option_copied result) ≡ is_text (slice_get self.now.entries number) }
        ensures pending { is_pending_entry (option_copied result) ≡ is_pending (slice_get self.now.entries number) }
        ensures closed { is_closed_entry (option_copied result) ≡ is_closed (slice_get self.now.entries number) }
    {
        Some(entry_of(self.entries.get(number as usize)?.kept()))
    }

    /// What the number names, as a class. The other calls find the chain of a closed descriptor at once by
    /// its number.
    #[tactic(auto, using(crate::proofs::TableLemmas::number_answered))]
    pub fn class_at(&self, number: u32) -> Class
        ensures names { IsClass self.now.chains (slice_get self.now.entries number) result }
        ensures number { answered_number result ≡ number_at self.now.numbers number }
    {
        match self.entries.get(number as usize) {
            None => Class::NotThere,
            Some(slot) => match slot.kept() {
                Kept::Text | Kept::Other => Class::NoClass,
                Kept::Pending => Class::Open,
                Kept::Closed(number) => Class::Closed(ChainNumber { number }),
            },
        }
    }

    /// How many layers the chain of a closed entry has.
    pub fn layers(&self, number: u32) -> usize
        requires { IsTrue (is_closed (slice_get self.now.entries number)) }
        ensures { result ≡ length (chain_at self.now.entries number) }
    {
        self.chains.layers(chain_number(&self.entries, number))
    }

    /// The layer of the chain of a closed entry at this index, where 0 is the highest superclass. The
    /// number of steps is in the order of the logarithm of the chain.
    pub fn layer(&self, number: u32, index: usize) -> &KeptLayer
        requires closed { IsTrue (is_closed (slice_get self.now.entries number)) }
        requires index { index < length (chain_at self.now.entries number) }
        ensures { slice_get (chain_at self.now.entries number) index ≡ Some result.now }
    {
        self.chains
            .layer(chain_number(&self.entries, number), index)
    }

    /// The class whose own layer is the one at this index of the chain, where 0 is the highest superclass. The number of steps
    /// is in the order of the logarithm of the chain.
    pub fn class_of_layer(&self, chain: ChainNumber, index: usize) -> ChainNumber
        requires chain { chain < length self.now.chains }
        requires index { index < length (chain_in self.now.chains chain) }
        ensures number { slice_get (line_in self.now.lines chain) index ≡ Some result }
        ensures inside { result < length self.now.chains }
        ensures layer { own_layer (chain_in self.now.chains result) ≡ slice_get (chain_in self.now.chains chain) index }
    {
        let number = self.chains.class_of_layer(chain.number, index);
        ChainNumber { number }
    }

    /// The index of the first layer, at `from` or after it, for which an object holds something to read. The
    /// number of steps is in the order of the logarithm of the chain.
    pub fn next_filled(&self, number: u32, from: usize) -> Option<usize>
        requires { IsTrue (is_closed (slice_get self.now.entries number)) }
        ensures { result ≡ next_filled (chain_at self.now.entries number) from }
    {
        self.chains
            .next_filled(chain_number(&self.entries, number), from)
    }

    /// Whether each layer of the chain of a closed entry is a proxy or serializable.
    pub fn all_serial(&self, number: u32) -> bool
        requires { IsTrue (is_closed (slice_get self.now.entries number)) }
        ensures { result ≡ all_serial (chain_at self.now.entries number) }
    {
        self.chains.all_serial(chain_number(&self.entries, number))
    }

    /// Whether the class of a closed entry fits the purpose, or what is wrong with it.
    pub fn fit(&self, number: u32, purpose: Purpose) -> Fit
        requires { IsTrue (is_closed (slice_get self.now.entries number)) }
        ensures { result ≡ fit_of purpose (chain_at self.now.entries number) }
    {
        self.chains
            .fit(chain_number(&self.entries, number), purpose)
    }

    /// Whether the class with this chain fits the purpose, or what is wrong with it: `fit` of its entry.
    pub fn chain_fit(&self, chain: ChainNumber, purpose: Purpose) -> Fit
        requires { chain < length self.now.chains }
        ensures { result ≡ fit_of purpose (chain_in self.now.chains chain) }
    {
        self.chains.fit(chain.number, purpose)
    }

    /// Whether the class itself, the last of this chain, is externalizable.
    pub fn is_external(&self, chain: ChainNumber) -> bool
        requires { chain < length self.now.chains }
        ensures { result ≡ is_external (chain_in self.now.chains chain) }
    {
        self.chains.is_external(chain.number)
    }

    /// How many bytes an element of an array of this class has, where the elements are raw values; None where
    /// they are values, or the class is not an array's.
    pub fn element_size(&self, chain: ChainNumber) -> Option<u8>
        requires { chain < length self.now.chains }
        ensures { result ≡ option_map size_of (elements_of (chain_in self.now.chains chain)) }
    {
        self.chains.element_size(chain.number)
    }

    /// The sections of the data of an object with this chain, by the first and the last; None where there
    /// are none. The number of steps is in the order of the logarithm of the chain.
    #[inline(always)]
    pub fn sections(&self, chain: ChainNumber) -> Option<Sections>
        requires { chain < length self.now.chains }
        ensures { AreSections self.now.chains (chain_in self.now.chains chain) result }
    {
        self.chains.sections(chain.number)
    }

    /// What a section holds.
    pub fn section(&self, section: SectionNumber) -> Section
        requires { HasSection self.now.chains section }
        ensures { HoldsFor (layer_of self.now.chains section) result }
    {
        self.chains.section(section.number)
    }

    /// How many bytes the raw value at this place has, among the raw values at the beginning of the section.
    pub fn prim_size(&self, section: SectionNumber, pos: u16) -> u8
        requires section { HasSection self.now.chains section }
        requires pos { pos < length (primitive_codes (layer_of self.now.chains section).codes) }
        ensures { option_map size_of (slice_get (primitive_codes (layer_of self.now.chains section).codes) pos) ≡ Some result }
    {
        self.chains.prim_size(section.number, pos)
    }

    /// The section that comes after this one in an object's data, of which `last` is the last section; None
    /// after the last. The number of steps is in the order of the logarithm of the chain.
    pub fn next_section(&self, last: SectionNumber, section: SectionNumber) -> Option<SectionNumber>
        requires { IsOn self.now.chains last section }
        ensures { IsNext self.now.chains last section result }
    {
        let number = self.chains.next_section(last.number, section.number)?;
        Some(SectionNumber { number })
    }

    /// What `next_section` gives. For one who goes along all sections of an object's data it takes fewer steps: where one is
    /// found by a walk, up to 15 that come after it are found too, and kept until a class is closed or they are of no use.
    #[inline(always)]
    pub fn pass_section(
        &mut self,
        last: SectionNumber,
        section: SectionNumber,
    ) -> Option<SectionNumber>
        requires { IsOn self.old.chains last section }
        ensures next { IsNext self.old.chains last section result }
        ensures same { self.new ≡ self.old }
    {
        let number = self.chains.pass_section(last.number, section.number)?;
        Some(SectionNumber { number })
    }

    /// Forgets all entries, and keeps the memory for the next ones.
    pub fn reset(&mut self)
        ensures entries { self.new.entries ≡ [] }
        ensures chains { self.new.chains ≡ [] }
        ensures numbers { self.new.numbers ≡ [] }
        ensures lines { self.new.lines ≡ [] }
        ensures max { self.new.max ≡ self.old.max }
    {
        self.restart(self.max);
    }

    /// Forgets all entries, of which there may be up to `max` from now on, and keeps the memory for them.
    pub fn restart(&mut self, max: u32)
        ensures entries { self.new.entries ≡ [] }
        ensures chains { self.new.chains ≡ [] }
        ensures numbers { self.new.numbers ≡ [] }
        ensures lines { self.new.lines ≡ [] }
        ensures max { self.new.max ≡ max }
    {
        self.entries.clear();
        self.chains.clear();
        self.pending = 0;
        self.max = max;
    }
}

/// The number of the chain of a closed entry.
fn chain_number(entries: &[Slot], number: u32) -> u32
    requires { IsTrue (is_closed_slot (slice_get entries.now number)) }
    ensures { slice_get entries.now number ≡ Some (closed_kept result) }
{
    match entries[number as usize].kept() {
        Kept::Closed(chain) => chain,
        _ => unreachable!(),
    }
}

/// The number of the chain of the parent's entry, if there is a parent.
fn parent_chain_number(entries: &[Slot], parent: Option<u32>) -> Option<u32>
    requires { ForSome parent (λ p. IsTrue (is_closed_slot (slice_get entries.now p))) }
    ensures { IsNumberOf entries.now parent result }
{
    match parent {
        None => None,
        Some(parent) => Some(chain_number(entries, parent)),
    }
}
