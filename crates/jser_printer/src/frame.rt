//! Frames: what is open while the tokens go by, in few bytes.
ghost use Rattle.std.specs.Prelude.{◌≡◌};
ghost use Rattle.jser_printer.specs.Frames.{go_on};

use crate::owner::Owner;
use crate::primitive::Primitive;

/// How far the section of a class has come.
#[derive(Clone, Copy)]
pub(crate) enum Stage {
    /// Its first line.
    Start,
    /// The raw values of its fields from this one on.
    Raw(usize),
    /// The values of its fields from this one on.
    Value(usize),
}

/// The elements of an array that are still to come.
#[derive(Clone, Copy)]
pub(crate) struct Elements {
    pub(crate) level: u64,
    /// Their type, where it is primitive.
    pub(crate) elements: Option<Primitive>,
    /// The index of the first of them.
    pub(crate) index: u32,
    /// How many they are.
    pub(crate) left: u32,
}

/// The sections of an object that are still to come, from a stage of one layer on.
#[derive(Clone, Copy)]
pub(crate) struct Sections {
    pub(crate) level: u64,
    /// The number of the chain of its class.
    pub(crate) chain: u32,
    /// The index of the layer in the chain.
    pub(crate) index: usize,
    pub(crate) stage: Stage,
}

impl Sections {
    /// The sections from a stage of the layer at this index on.
    #[inline(always)]
    pub(crate) fn go_on(self, index: usize, stage: Stage) -> Sections
        ensures { result ≡ go_on self index stage }
    {
        Sections {
            level: self.level,
            chain: self.chain,
            index,
            stage,
        }
    }
}

/// The superclass place of a class.
#[derive(Clone, Copy)]
pub(crate) struct SuperPlace {
    pub(crate) level: u64,
    /// The number of the handle of the class.
    pub(crate) number: usize,
    /// The number of its layer.
    pub(crate) layer: u32,
}

impl SuperPlace {
    /// The end of the place, where the superclass is the one with the number of the parent.
    #[inline(always)]
    pub(crate) fn close(self, parent: usize) -> Frame
        ensures { result ≡ Frame.Close self.number parent self.layer }
    {
        Frame::Close {
            number: self.number,
            parent,
            layer: self.layer,
        }
    }
}

/// What is open. `level` is the level of the lines that begin there.
#[derive(Clone, Copy)]
pub(crate) enum Frame {
    /// The contents of an annotation.
    Notes {
        level: u64,
    },
    /// The elements of an array.
    Elements(Elements),
    /// The sections of an object.
    Sections(Sections),
    /// The one section of an externalizable object.
    External {
        level: u64,
        chain: u32,
    },
    /// The annotation of that.
    ExternalNotes {
        level: u64,
        chain: u32,
    },
    /// The end of that.
    ExternalEnd {
        level: u64,
        chain: u32,
    },
    /// The end of all sections.
    End {
        level: u64,
    },
    /// The end of the class place of an owner, whose class is the one with this number.
    Made {
        owner: Owner,
        level: u64,
        number: usize,
    },
    /// The superclass place of a class.
    Super(SuperPlace),
    /// The handle of a reference there.
    SuperHandle(SuperPlace),
    /// The end of the superclass place: the superclass is the one with the number of the parent.
    Close {
        number: usize,
        parent: usize,
        layer: u32,
    },
}
