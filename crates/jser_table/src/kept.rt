//! Layers as a table keeps them. Most classes have few fields: their type codes lie in place, and take no memory of
//! their own.
ghost use Rattle.std.specs.Prelude.{◌≡◌, ◌<◌, ◌^◌, [], length, option_map, IfSome, vec_len};
ghost use Rattle.jser_table.specs.Chains.{has_write_method, is_serializable, is_externalizable, has_block_data, is_enum, is_filled, is_serial, is_array_kind, elements_of_kind};
ghost use Rattle.jser_table.specs.Codes.{size_of};
ghost use Rattle.jser_table.specs.Fits.{class_fit, object_fit};

use crate::codes::{Codes, size_of_code};
use crate::flags::{has_block_data, has_write_method, is_enum, is_externalizable, is_serializable};
use crate::layer::{BodyKind, Fit, Layer, LayerKind, Purpose};
use std::alloc::Global;
use std::fmt;
use std::marker::Model;

/// How many type codes lie in place at most: as many as find room, beside the rest, in 32 bytes.
const FEW: usize = 26;

/// How a layer is kept.
#[derive(Drop)]
enum Form {
    /// With its type codes in place: so many of these bytes.
    Few {
        kind: LayerKind,
        flags: u8,
        count: u8,
        codes: [u8; FEW],
    },
    /// With more type codes than that.
    Many {
        kind: LayerKind,
        flags: u8,
        codes: Codes,
    },
}

/// One class of a chain, as a table keeps it. Contracts see it as the `Layer` that the table was given.
#[derive(Drop)]
pub struct KeptLayer {
    form: Form,
}

impl Model for KeptLayer {
    ghost use Rattle.jser_table.specs.declared.layer.Layer.{Layer};
    ghost use Rattle.jser_table.specs.Kept.{layer_kept, IsKept};

    ghost Value = { Layer };

    ghost view = { λ a. layer_kept a.form };

    ghost invariant = { λ a. IsKept a.form };
}

/// Says what the class is and its flags, and not the type codes of its fields.
impl fmt::Debug for KeptLayer {
    fn fmt<W: fmt::Write>(&self, f: &mut fmt::Formatter<W>) -> fmt::Result {
        f.debug_struct("KeptLayer")
            .field("kind", &self.kind())
            .field("flags", &self.flags())
            .finish_non_exhaustive()
    }
}

/// The layer with these codes in place, where they are few.
fn in_place(kind: LayerKind, flags: u8, codes: &[u8]) -> Option<KeptLayer>
    ensures { IfSome result (λ layer. layer ≡ record { kind = kind; flags = flags; codes = codes.now }) }
{
    let count = codes.len();
    if count > FEW {
        return None;
    }
    let mut bytes = [0; FEW];
    bytes[..count].copy_from_slice(codes);
    Some(KeptLayer {
        form: Form::Few {
            kind,
            flags,
            count: count as u8,
            codes: bytes,
        },
    })
}

impl KeptLayer {
    /// A layer with no type codes. Takes no memory.
    pub fn bare(kind: LayerKind, flags: u8) -> KeptLayer
        ensures { result ≡ record { kind = kind; flags = flags; codes = [] } }
    {
        KeptLayer {
            form: Form::Few {
                kind,
                flags,
                count: 0,
                codes: [0; FEW],
            },
        }
    }

    /// This layer. Takes no memory.
    pub fn new(layer: Layer) -> KeptLayer
        ensures { result ≡ layer }
    {
        let Layer { kind, flags, codes } = layer;
        match in_place(kind, flags, codes.as_slice()) {
            Some(kept) => kept,
            None => KeptLayer {
                form: Form::Many { kind, flags, codes },
            },
        }
    }

    /// The layer with these type codes, which are taken out of the vector. Takes no memory: where they are few, the
    /// vector keeps its room, and else it is given away and an empty one stands in its place.
    pub fn taking(alloc: Global, kind: LayerKind, flags: u8, codes: &mut Vec<u8>) -> KeptLayer
        requires { vec_len codes.old < 2 ^ 15 }
        ensures layer { result ≡ record { kind = kind; flags = flags; codes = codes.old.items } }
        ensures rest { codes.new.items ≡ [] }
    {
        match in_place(kind, flags, codes.as_slice()) {
            Some(kept) => {
                codes.clear();
                kept
            }
            None => KeptLayer::new(Layer {
                kind,
                flags,
                codes: Codes::new(std::mem::replace(codes, Vec::new(alloc))),
            }),
        }
    }

    /// Gives it these flags in place of its own.
    pub fn set_flags(&mut self, flags: u8)
        ensures { self.new ≡ record { kind = self.old.kind; flags = flags; codes = self.old.codes } }
    {
        let new = flags;
        match &mut self.form {
            Form::Few { flags, .. } => *flags = new,
            Form::Many { flags, .. } => *flags = new,
        }
    }

    /// What the class is.
    pub fn kind(&self) -> LayerKind
        ensures { result ≡ self.now.kind }
    {
        match &self.form {
            Form::Few { kind, .. } => *kind,
            Form::Many { kind, .. } => *kind,
        }
    }

    /// The flags of its descriptor.
    pub fn flags(&self) -> u8
        ensures { result ≡ self.now.flags }
    {
        match &self.form {
            Form::Few { flags, .. } => *flags,
            Form::Many { flags, .. } => *flags,
        }
    }

    /// The type codes of its fields, in order.
    pub fn codes(&self) -> &[u8]
        ensures codes { result.now ≡ self.now.codes }
        ensures few { length result.now < 2 ^ 15 }
    {
        match &self.form {
            Form::Few { count, codes, .. } => &codes[..*count as usize],
            Form::Many { codes, .. } => codes.as_slice(),
        }
    }

    /// Whether the flags have `SC_WRITE_METHOD`: an annotation follows the class's fields.
    pub fn has_write_method(&self) -> bool
        ensures { result ≡ has_write_method self.now.flags }
    {
        has_write_method(self.flags())
    }

    /// Whether the flags have `SC_SERIALIZABLE`.
    pub fn is_serializable(&self) -> bool
        ensures { result ≡ is_serializable self.now.flags }
    {
        is_serializable(self.flags())
    }

    /// Whether the flags have `SC_EXTERNALIZABLE`.
    pub fn is_externalizable(&self) -> bool
        ensures { result ≡ is_externalizable self.now.flags }
    {
        is_externalizable(self.flags())
    }

    /// Whether the flags have `SC_BLOCK_DATA`: an externalizable class writes block data.
    pub fn has_block_data(&self) -> bool
        ensures { result ≡ has_block_data self.now.flags }
    {
        has_block_data(self.flags())
    }

    /// Whether the flags have `SC_ENUM`.
    pub fn is_enum(&self) -> bool
        ensures { result ≡ is_enum self.now.flags }
    {
        is_enum(self.flags())
    }

    /// Whether an object holds something to read for this class: fields, or an annotation.
    pub fn is_filled(&self) -> bool
        ensures { result ≡ is_filled self.now }
    {
        !self.codes().is_empty() || self.has_write_method()
    }

    /// Whether the class is a proxy or has the flag `SC_SERIALIZABLE`.
    pub fn is_serial(&self) -> bool
        ensures { result ≡ is_serial self.now }
    {
        self.kind() == LayerKind::Proxy || self.is_serializable()
    }

    /// Whether this class fits the purpose. `all_serial` tells whether each class of its chain, itself
    /// included, is a proxy or serializable.
    pub(crate) fn fit(&self, purpose: Purpose, all_serial: bool) -> Fit
        ensures { result ≡ class_fit purpose self.now all_serial }
    {
        let is_right = match purpose {
            Purpose::Object => return self.fit_object(all_serial),
            Purpose::Array => self.is_array(),
            Purpose::EnumConst => self.kind() != LayerKind::Proxy && self.is_enum(),
        };
        if is_right { Fit::Fits } else { Fit::WrongClass }
    }

    fn fit_object(&self, all_serial: bool) -> Fit
        ensures { result ≡ object_fit self.now all_serial }
    {
        if self.is_array() {
            return Fit::WrongClass;
        }
        if self.is_externalizable() {
            return if self.has_block_data() {
                Fit::Fits
            } else {
                Fit::ExternalRaw
            };
        }
        if all_serial {
            Fit::Fits
        } else {
            Fit::NotSerializable
        }
    }

    /// The size of an array's elements, where they are raw values.
    pub(crate) fn element_size(&self) -> Option<u8>
        ensures { result ≡ option_map size_of (elements_of_kind self.now.kind) }
    {
        match self.kind() {
            LayerKind::Array(BodyKind::Prim(code)) => size_of_code(code),
            _ => None,
        }
    }

    fn is_array(&self) -> bool
        ensures { result ≡ is_array_kind self.now.kind }
    {
        matches!(self.kind(), LayerKind::Array(_))
    }
}
