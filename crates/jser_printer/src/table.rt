//! The table of handles of an epoch, with the names of classes and fields.
//!
//! A table of `jser_table` knows what each handle names and which classes are in a chain. The names are kept beside it, by
//! the numbers that it gives to classes.
ghost use Rattle.std.specs.Prelude.{◌≡◌, ◌<◌, ◌+◌, ◌^◌, [], ◌∷◌, ◌++◌, true, length, slice_get, slice_set, Some, IsTrue, OnOk, OnErr, IfOk, IfSome};
ghost use Rattle.std.specs.Option.{ForSome};
ghost use Rattle.jser_table.specs.Entries.{is_closed, is_pending};
ghost use Rattle.jser_shown.specs.Known.{known_text, known_other, known_pending, known_class, with_entry, own_class_of};
ghost use Rattle.jser_printer.specs.Layers.{view_layer};
ghost use Rattle.jser_printer.specs.Tables.{layer_in, layers_in, layers_above, view_new, IsChainOf, IsClassAt, IsParent, handle_of, layers_under, IsStraight, IsPending, Closes};

use crate::class::{KeptClass, Parent};
use crate::layer::Layer;
use jser_table::{ChainNumber, Class, Entry, KeptLayer, Kind, LayerKind, Table as Handles};
use std::alloc::{AllocError, Global};
use std::marker::Model;

/// The handles of an epoch, the layers of its classes, and the chains of those whose descriptors have ended.
#[derive(Drop)]
pub(crate) struct NameTable {
    handles: Handles,
    layers: Vec<Layer>,
    /// The classes in the order of their numbers.
    classes: Vec<KeptClass>,
}

impl Model for NameTable {
    ghost use Rattle.jser_printer.specs.Layers.{view_layers};
    ghost use Rattle.jser_printer.specs.Tables.{NamesView, table_of, IsSound};

    ghost Value = { NamesView };

    ghost view = { λ a. table_of a.handles (view_layers a.layers.items) a.classes.items };

    ghost invariant = { λ a. IsSound a.handles (view_layers a.layers.items) a.classes.items };
}

impl NameTable {
    /// An empty table. Takes no memory.
    #[tactic(auto, using(crate::proofs::TableLemmas::sound_none, crate::proofs::TableLemmas::table_none))]
    pub(crate) fn new(alloc: Global) -> NameTable
        ensures known { result.known ≡ [] }
        ensures layers { result.layers ≡ [] }
        ensures chains { result.chains ≡ [] }
    {
        NameTable {
            handles: Handles::new(alloc, 0xFFFF_FFFF),
            layers: Vec::new(alloc),
            classes: Vec::new(alloc),
        }
    }

    /// Forgets all, and keeps the room.
    #[tactic(auto, using(crate::proofs::TableLemmas::sound_none, crate::proofs::TableLemmas::table_none))]
    pub(crate) fn reset(&mut self)
        ensures known { self.new.known ≡ [] }
        ensures layers { self.new.layers ≡ [] }
        ensures chains { self.new.chains ≡ [] }
    {
        self.handles.reset();
        self.layers.clear();
        self.classes.clear();
    }

    /// How many handles are assigned.
    #[tactic(auto, using(crate::proofs::HandleLemmas::count_handles))]
    #[inline(always)]
    pub(crate) fn count(&self) -> usize
        ensures { result ≡ length self.now.known }
    {
        self.handles.count() as usize
    }

    /// Assigns the next handle to a string.
    #[inline(always)]
    pub(crate) fn add_text(&mut self) -> Result<(), AllocError>
        ensures known { OnOk result (self.new.known ≡ with_entry self.old.known known_text) }
        ensures layers { self.new.layers ≡ self.old.layers }
        ensures chains { self.new.chains ≡ self.old.chains }
    {
        self.add(Kind::Text)
    }

    /// Assigns the next handle to a class object, an array, an enum constant or an object.
    #[inline(always)]
    pub(crate) fn add_other(&mut self) -> Result<(), AllocError>
        ensures known { OnOk result (self.new.known ≡ with_entry self.old.known known_other) }
        ensures layers { self.new.layers ≡ self.old.layers }
        ensures chains { self.new.chains ≡ self.old.chains }
    {
        self.add(Kind::Other)
    }

    /// Assigns the next handle to a descriptor.
    pub(crate) fn add_pending(&mut self) -> Result<(), AllocError>
        ensures known { OnOk result (self.new.known ≡ with_entry self.old.known known_pending) }
        ensures layers { self.new.layers ≡ self.old.layers }
        ensures chains { self.new.chains ≡ self.old.chains }
    {
        self.add(Kind::Pending)
    }

    /// Assigns the next handle. There may be 2^32 - 1 of them, more than any stream that was checked has.
    #[inline(always)]
    fn add(&mut self, kind: Kind) -> Result<(), AllocError>
        ensures known { OnOk result (self.new.known ≡ with_entry self.old.known (view_new kind)) }
        ensures layers { self.new.layers ≡ self.old.layers }
        ensures chains { self.new.chains ≡ self.old.chains }
    {
        let Ok(_number) = self.handles.assign(kind) else {
            return Err(AllocError);
        };
        Ok(())
    }

    /// Keeps a layer, and gives its number.
    pub(crate) fn add_layer(&mut self, layer: Layer) -> Result<u32, AllocError>
        ensures layers { OnOk result (self.new.layers ≡ self.old.layers ++ view_layer layer ∷ []) }
        ensures number { IfOk result (λ number. number ≡ length self.old.layers) }
        ensures known { self.new.known ≡ self.old.known }
        ensures chains { self.new.chains ≡ self.old.chains }
        ensures kept { OnErr result (self.new.layers ≡ self.old.layers) }
    {
        if self.layers.len() >= 0xFFFF_FFFF {
            return Err(AllocError);
        }
        let number = self.layers.len() as u32;
        self.layers.push(layer)?;
        Ok(number)
    }

    /// The descriptor with this number has ended: its class has this layer, under the class with the number of the
    /// parent, if there is one.
    ///
    /// # Errors
    ///
    /// Where memory runs out, where no descriptor with this number is open, or where its chain has more layers than 32 bits
    /// count. No stream that was checked leads to the last two.
    #[inline(never)]
    pub(crate) fn close(
        &mut self,
        number: usize,
        parent: Option<usize>,
        layer: u32,
    ) -> Result<(), AllocError>
        requires { layer < length self.old.layers }
        ensures known { OnOk result (self.new.known ≡ slice_set self.old.known number (known_class (layers_above self.old.known parent ++ (layer_in self.old.layers layer ∷ [])))) }
        ensures layers { self.new.layers ≡ self.old.layers }
        ensures chains { OnOk result (self.new.chains ≡ self.old.chains ++ (layers_above self.old.known parent ++ (layer_in self.old.layers layer ∷ [])) ∷ []) }
        ensures kept { OnErr result (self.new.chains ≡ self.old.chains) }
    {
        if !is_pending_at(&self.handles, number) {
            return Err(AllocError);
        }
        let above = parent_in(&self.handles, parent);
        let Some(layers) = layers_under(&self.classes, above) else {
            return Err(AllocError);
        };
        let straight = straight_under(&self.classes, above);
        self.classes.reserve(1)?;
        let chain = close_in(&mut self.handles, number as u32, handle_of(above));
        match self.classes.push(KeptClass {
            chain,
            own: layer,
            layers,
            straight,
        }) {
            Ok(()) => Ok(()),
            Err(_) => unreachable!(),
        }
    }

    /// The chain of the class with this number, if it is one.
    #[inline(always)]
    pub(crate) fn chain(&self, number: usize) -> Option<u32>
        ensures { IsChainOf self.now number result }
    {
        class_at(&self.handles, number)
    }

    /// How many layers the chain has.
    #[inline(always)]
    pub(crate) fn layers(&self, chain: u32) -> usize
        requires { chain < length self.now.chains }
        ensures { result ≡ length (layers_in self.now.chains chain) }
    {
        self.classes[chain as usize].layers as usize
    }

    /// The layer of the chain at this index, where 0 is the highest superclass.
    #[inline(always)]
    pub(crate) fn layer(&self, chain: u32, index: usize) -> &Layer
        requires chain_in { chain < length self.now.chains }
        requires index_in { index < length (layers_in self.now.chains chain) }
        ensures { slice_get (layers_in self.now.chains chain) index ≡ Some (view_layer result.now) }
    {
        self.layer_of_class(self.class_of_layer(chain, index))
    }

    /// The class whose own layer is the one of the chain at this index.
    #[inline(always)]
    fn class_of_layer(&self, chain: u32, index: usize) -> usize
        requires chain_in { chain < length self.now.chains }
        requires index_in { index < length (layers_in self.now.chains chain) }
        ensures inside { result < length self.now.chains }
        ensures layer { slice_get (layers_in self.now.chains chain) index ≡ Some (own_class_of (layers_in self.now.chains result)) }
    {
        let layers = self.layers(chain);
        let class = &self.classes[chain as usize];
        let back = layers - 1 - index;
        if back <= class.straight as usize {
            return chain as usize - back;
        }
        self.handles.class_of_layer(class.chain, index).index()
    }

    /// The class's own layer.
    #[inline(always)]
    pub(crate) fn own(&self, chain: u32) -> &Layer
        requires { chain < length self.now.chains }
        ensures { own_class_of (layers_in self.now.chains chain) ≡ view_layer result.now }
    {
        self.layer_of_class(chain as usize)
    }

    /// The own layer of the class with this number.
    #[inline(always)]
    fn layer_of_class(&self, class: usize) -> &Layer
        requires { class < length self.now.chains }
        ensures { own_class_of (layers_in self.now.chains class) ≡ view_layer result.now }
    {
        let own = self.classes[class].own;
        &self.layers[own as usize]
    }

    /// The layer with this number, if there is one.
    pub(crate) fn layer_at(&self, number: u32) -> Option<&Layer> {
        self.layers.get(number as usize)
    }

    /// How many layers the chain with this number has; 0 where there is none.
    pub(crate) fn layers_of(&self, chain: u32) -> usize
        ensures { chain < length self.now.chains → result ≡ length (layers_in self.now.chains chain) }
    {
        if (chain as usize) < self.classes.len() {
            self.layers(chain)
        } else {
            0
        }
    }

    /// The layer of a chain at this index, if there is one.
    pub(crate) fn layer_of(&self, chain: u32, index: usize) -> Option<&Layer> {
        if (chain as usize) < self.classes.len() && index < self.layers(chain) {
            Some(self.layer(chain, index))
        } else {
            None
        }
    }

    /// The own layer of a class, if there is a chain with this number.
    pub(crate) fn own_of(&self, chain: u32) -> Option<&Layer> {
        if (chain as usize) < self.classes.len() {
            Some(self.own(chain))
        } else {
            None
        }
    }
}

/// The number of the class of a handle, if it is a class.
#[tactic(auto, using(crate::proofs::HandleLemmas::no_class_past))]
#[inline(always)]
fn class_at(handles: &Handles, number: usize) -> Option<u32>
    requires numbers { length handles.now.numbers < 2 ^ 32 }
    requires chains { length handles.now.chains < 2 ^ 32 }
    ensures { IsClassAt handles.now number result }
{
    if number > 0xFFFF_FFFF {
        return None;
    }
    match handles.class_at(number as u32) {
        Class::Closed(chain) => Some(chain.index() as u32),
        Class::NotThere => None,
        Class::NoClass => None,
        Class::Open => None,
    }
}

/// The parent, if it is a class.
fn parent_in(handles: &Handles, parent: Option<usize>) -> Option<Parent>
    requires numbers { length handles.now.numbers < 2 ^ 32 }
    requires chains { length handles.now.chains < 2 ^ 32 }
    ensures { IsParent handles.now parent result }
{
    let number = parent?;
    let class = class_at(handles, number)?;
    Some(Parent {
        handle: number as u32,
        class,
    })
}

/// The handle of a parent, if there is one.
fn handle_of(parent: Option<Parent>) -> Option<u32>
    ensures { result ≡ handle_of parent }
{
    match parent {
        Some(parent) => Some(parent.handle),
        None => None,
    }
}

/// Whether a descriptor with this handle is open.
fn is_pending_at(handles: &Handles, number: usize) -> bool
    ensures { result ≡ true → IsPending handles.now number }
{
    number <= 0xFFFF_FFFF && matches!(handles.get(number as u32), Some(Entry::Pending))
}

/// How many layers the chain of a class has under this parent; None where there are too many to count.
fn layers_under(classes: &[KeptClass], parent: Option<Parent>) -> Option<u32>
    requires { ForSome parent (λ p. p.class < length classes.now) }
    ensures { IfSome result (λ layers. layers ≡ layers_under classes.now parent) }
{
    match parent {
        Some(parent) => classes[parent.class as usize].layers.checked_add(1),
        None => Some(1),
    }
}

/// How many superclasses of the next class, from this parent on, have the numbers just before its own. To answer fewer is
/// never wrong: the layers of the others are found by a printer up the chain.
fn straight_under(classes: &[KeptClass], parent: Option<Parent>) -> u32
    requires { ForSome parent (λ p. p.class < length classes.now) }
    ensures { IsStraight classes.now parent result }
{
    match parent {
        Some(parent) => {
            let class = parent.class as usize;
            if class + 1 != classes.len() || classes[class].straight == 0xFFFF_FFFF {
                return 0;
            }
            classes[class].straight + 1
        }
        None => 0,
    }
}

/// Closes a descriptor under this parent, and gives the number of its class. The layer that `jser_table` is given is empty:
/// what the printer knows of the class is kept by that number.
fn close_in(handles: &mut Handles, number: u32, parent: Option<u32>) -> ChainNumber
    requires pending { IsTrue (is_pending (slice_get handles.old.entries number)) }
    requires parent { ForSome parent (λ p. IsTrue (is_closed (slice_get handles.old.entries p))) }
    ensures closes { Closes handles.old handles.new number parent }
    ensures number { result ≡ length handles.old.chains }
    ensures fewer { length handles.new.chains < 2 ^ 32 }
{
    handles.close_kept(number, KeptLayer::bare(LayerKind::Other, 0), parent);
    // Their number is one of 32 bits, which `fewer` says.
    let _classes = handles.classes();
    match handles.class_at(number) {
        Class::Closed(chain) => chain,
        Class::NotThere => unreachable!(),
        Class::NoClass => unreachable!(),
        Class::Open => unreachable!(),
    }
}
