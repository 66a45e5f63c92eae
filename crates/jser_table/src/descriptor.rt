//! A closed descriptor: its own layer, its links to superclasses, and what is known of its whole chain.
ghost use Rattle.std.specs.Prelude.{◌≡◌, ◌<◌, ◌≤◌, ◌^◌, ◌-◌, None, true};
ghost use Rattle.jser_table.specs.Chains.{is_filled};
ghost use Rattle.jser_table.specs.Codes.{AreLeading};
ghost use Rattle.jser_table.specs.Sections.{HoldsFor};
ghost use Rattle.jser_table.specs.Descriptors.{descriptor_begun, descriptor_whole, told_count};
ghost use Rattle.jser_table.specs.Paths.{section_in};
ghost use Rattle.jser_table.specs.Upwards.{at_top};

use crate::codes::{counts_of, leading_of};
use crate::kept::KeptLayer;
use crate::section::Section;

/// Where a descriptor's superclasses stand in the list of closed descriptors: the parent, and an ancestor
/// further up. The jumps are those of a skew-binary list (E. Myers, "An applicative random-access stack",
/// 1983), so a walk to any ancestor takes a number of links in the order of the logarithm of the chain.
#[derive(Clone, Copy)]
pub(crate) struct Links {
    pub(crate) parent: u32,
    pub(crate) jump: u32,
}

/// A closed descriptor.
#[derive(Drop)]
pub(crate) struct Descriptor {
    pub(crate) layer: KeptLayer,
    /// None for a class with no superclass.
    pub(crate) links: Option<Links>,
    /// How many layers the chain has.
    pub(crate) layers: u32,
    /// How many of them have something to read.
    pub(crate) filled: u32,
    /// The number of the lowest section of the chain, if it has one.
    pub(crate) last: Option<u32>,
    /// Whether each of them is a proxy or serializable.
    pub(crate) is_serial: bool,
}

/// Where a walk goes up from a section: to the one just above it in the data of an object, or to one further up, as a class
/// has its `Links`. The highest section leads to itself. A walk to a section meets sections alone, and no descriptors, which
/// are larger.
#[derive(Clone, Copy)]
pub(crate) struct Upward {
    pub(crate) above: u32,
    pub(crate) jump: u32,
    /// How many sections the data have down to this one, itself included.
    pub(crate) count: u32,
}

impl Upward {
    /// The section with this number has none above it.
    pub(crate) fn at_top(number: u32) -> Upward
        ensures { result ≡ at_top number }
    {
        Upward {
            above: number,
            jump: number,
            count: 1,
        }
    }
}

/// What is known of the superclasses of a class that is to be closed.
#[derive(Clone, Copy)]
pub(crate) struct Above {
    pub(crate) links: Option<Links>,
    pub(crate) layers: u32,
    pub(crate) filled: u32,
    pub(crate) last: Option<u32>,
    pub(crate) is_serial: bool,
}

impl Above {
    /// There are none.
    pub(crate) fn none() -> Above
        ensures { result ≡ record { links = None; layers = 0; filled = 0; last = None; is_serial = true } }
    {
        Above {
            links: None,
            layers: 0,
            filled: 0,
            last: None,
            is_serial: true,
        }
    }
}

/// A section in the list of sections. It lies flat, so it takes 36 bytes.
///
/// The section of the class that was closed first under another one goes on with that one's path; any other begins a path.
#[derive(Drop)]
pub(crate) struct Filed {
    raw_bytes: u32,
    prims: u16,
    values: u16,
    is_annotated: bool,
    /// How many of its codes come before the first that is not a primitive type's.
    pub(crate) leading: u16,
    /// The number of the closed descriptor whose layer it is.
    pub(crate) class: u32,
    /// The first section of its path.
    pub(crate) path: u32,
    /// The next section of its path; itself where it is the last.
    pub(crate) below: u32,
    pub(crate) upward: Upward,
}

const _: () = prove!(size_of::<Filed>() == 36);

impl Filed {
    /// The section of this layer, which is that of this class, with this number: the last of its path as yet.
    pub(crate) fn new(
        layer: &KeptLayer,
        class: u32,
        path: u32,
        number: u32,
        upward: Upward,
    ) -> Filed
        ensures section { HoldsFor layer.now (section_in result) }
        ensures leading { AreLeading layer.now.codes result.leading }
        ensures class { result.class ≡ class }
        ensures path { result.path ≡ path }
        ensures below { result.below ≡ number }
        ensures upward { result.upward ≡ upward }
    {
        let codes = layer.codes();
        let counts = counts_of(codes);
        Filed {
            raw_bytes: counts.raw_bytes,
            prims: counts.prims,
            values: counts.values,
            is_annotated: layer.has_write_method(),
            leading: leading_of(codes),
            class,
            path,
            below: number,
            upward,
        }
    }

    /// What it holds.
    pub(crate) fn section(&self) -> Section
        ensures { result ≡ section_in self.now }
    {
        Section {
            raw_bytes: self.raw_bytes,
            prims: self.prims,
            values: self.values,
            is_annotated: self.is_annotated,
        }
    }
}

/// What a walk up a chain counts: all layers, or those that have something to read.
#[derive(Clone, Copy)]
pub(crate) enum Counted {
    Layers,
    Filled,
}

impl Descriptor {
    /// A class with this layer under these superclasses. Of its layer it knows only that it is one more, until `complete` looks
    /// at the layer where it lies: to look at one that has still to be moved takes more steps.
    pub(crate) fn begun(above: Above, layer: KeptLayer) -> Descriptor
        requires { above.layers < 2 ^ 32 - 1 }
        ensures { result ≡ descriptor_begun above layer }
    {
        Descriptor {
            layer,
            links: above.links,
            layers: above.layers + 1,
            filled: above.filled,
            last: above.last,
            is_serial: above.is_serial,
        }
    }

    /// Takes its own layer into what it knows, and tells whether that has a section, which is the one with this number then.
    pub(crate) fn complete(&mut self, section: u32) -> bool
        requires { self.old.filled < 2 ^ 32 - 1 }
        ensures whole { self.new ≡ descriptor_whole self.old section }
        ensures filled { result ≡ is_filled self.old.layer }
    {
        self.is_serial = self.is_serial && self.layer.is_serial();
        let is_filled = self.layer.is_filled();
        if is_filled {
            self.filled += 1;
            self.last = Some(section);
        }
        is_filled
    }

    /// How many layers of the chain count.
    pub(crate) fn count(&self, counted: Counted) -> usize
        ensures { result ≡ told_count counted self.now }
    {
        match counted {
            Counted::Layers => self.layers as usize,
            Counted::Filled => self.filled as usize,
        }
    }
}
