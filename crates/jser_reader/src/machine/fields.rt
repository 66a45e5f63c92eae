//! The fields of a plain descriptor (Java Object Serialization Specification, section 6.4.1, fields), and the
//! interfaces of a proxy descriptor (proxyClassDescInfo).
ghost use Rattle.std.specs.Prelude.{◌≡◌, true, ◌<◌, ◌^◌, reverse, None, option_map};
ghost use Rattle.jser_table.specs.Codes.{is_object_code};
ghost use Rattle.jser_table.specs.Names.{layer_kind};
ghost use Rattle.jser_reading.specs.Goals.{read_layer};
ghost use Rattle.jser_verdict.specs.Verdicts.{count_reason, code_reason};
ghost use Rattle.jser_reader.specs.Fitting.{HasDescriptor};
ghost use Rattle.jser_reader.specs.Frames.{head_layer};
ghost use Rattle.jser_reader.specs.Reasons.{named};
ghost use Rattle.jser_reader.specs.Readers.{name_kind_of};
ghost use Rattle.jser_reader.specs.Handlers.{Tells, moved};
ghost use Rattle.jser_reader.specs.Descriptors.{SetsLayer, GoesOnFields, GoesOnInterfaces, after_field_count, after_code, after_interfaces};

use crate::machine::Machine;
use crate::machine::flow::Flow;
use crate::phase::{Phase, TextFor};
use crate::refusal::Reason;
use jser_table::{KeptLayer, LayerKind, size_of_code};

/// Whether the type code is `L` or `[`: the field holds an object or an array.
pub(super) fn is_object_code(code: u8) -> bool
    ensures { result ≡ is_object_code code }
{
    code == b'[' || code == b'L'
}

/// The kind of a plain descriptor's layer.
fn plain_kind(kind: LayerKind) -> LayerKind
    ensures { result ≡ layer_kind (name_kind_of kind) }
{
    match kind {
        LayerKind::Array(body) => LayerKind::Array(body),
        LayerKind::Other | LayerKind::Proxy => LayerKind::Other,
    }
}

impl Machine {
    /// All fields of the plain descriptor on top have been read: its layer is whole.
    #[tactic(auto, using(crate::proofs::FieldLemmas::sets_layer))]
    fn set_layer(&mut self)
        ensures { SetsLayer (read_layer (name_kind_of self.old.header.kind) (head_layer self.old.layers).flags (reverse self.old.header.codes)) self.old self.new }
    {
        let kind = plain_kind(self.kind);
        let flags = self.layer.flags();
        self.layer = self.fields.take(self.alloc, kind, flags);
    }

    /// What comes after a field: the next one, or after the last one the annotation of the descriptor.
    #[tactic(auto, using(crate::proofs::FieldLemmas::next_field))]
    pub(super) fn fields_done(&mut self) -> Flow
        ensures goes { GoesOnFields result self.old self.new }
        ensures result { result ≡ Flow.On }
        ensures meter { self.new.meter ≡ moved self.old.meter }
    {
        if self.fields.left() > 0 {
            return self.done(Phase::TypeCode);
        }
        self.set_layer();
        self.done(Phase::Note)
    }

    /// The number of fields of the plain descriptor on top.
    #[tactic(auto, using(crate::proofs::FieldLemmas::negative_count, crate::proofs::FieldLemmas::fields_begin))]
    #[inline(always)]
    pub(super) fn field_count(&mut self, n: u16) -> Flow
        ensures { HasDescriptor self.old.frames → Tells (count_reason (2 ^ 15) n) (after_field_count self.old n) result self.old self.new }
    {
        if n >= 0x8000 {
            return self.refuse(Reason::NegativeLength);
        }
        self.fields.begin(n);
        self.fields_done()
    }

    /// What is wrong with the type code of a field.
    #[inline(always)]
    pub(super) fn code_fault(&self, code: u8) -> Option<Reason>
        ensures { result ≡ option_map named (code_reason self.now.header.seen code) }
    {
        if is_object_code(code) {
            return None;
        }
        if size_of_code(code).is_none() {
            return Some(Reason::BadTypeCode);
        }
        self.fields.has_object().then_some(Reason::FieldOrder)
    }

    /// A field with this type code begins: its name comes next.
    #[tactic(auto, using(crate::proofs::FieldLemmas::no_field, crate::proofs::FieldLemmas::begins_field))]
    fn begin_field(&mut self, code: u8) -> Flow
        ensures { HasDescriptor self.old.frames → 0 < self.old.header.fields → Tells None (after_code self.old code) result self.old self.new }
    {
        let is_object = is_object_code(code);
        if self.fields.push(code, is_object).is_err() {
            return self.no_memory();
        }
        self.next_text(TextFor::FieldName(is_object), false)
    }

    /// The type code of a field.
    #[tactic(auto, using(crate::proofs::FieldLemmas::wrong_code, crate::proofs::FieldLemmas::right_code))]
    pub(super) fn type_code(&mut self, code: u8) -> Flow
        ensures { HasDescriptor self.old.frames → 0 < self.old.header.fields → Tells (code_reason self.old.header.seen code) (after_code self.old code) result self.old self.new }
    {
        match self.code_fault(code) {
            Some(reason) => self.refuse(reason),
            None => self.begin_field(code),
        }
    }

    /// What comes after an interface: the name of the next one, or after the last one the annotation of the proxy.
    #[tactic(auto, using(crate::proofs::FieldLemmas::next_interface))]
    pub(super) fn interfaces_done(&mut self) -> Flow
        ensures { GoesOnInterfaces result self.old self.new }
    {
        if self.interfaces > 0 {
            return self.next_text(TextFor::InterfaceName, false);
        }
        self.layer = KeptLayer::bare(LayerKind::Proxy, 0);
        self.done(Phase::Note)
    }

    /// The number of interfaces of the proxy descriptor on top.
    #[tactic(auto, using(crate::proofs::FieldLemmas::negative_interfaces, crate::proofs::FieldLemmas::interfaces_begin))]
    pub(super) fn interface_count(&mut self, n: u32) -> Flow
        ensures { HasDescriptor self.old.frames → Tells (count_reason (2 ^ 31) n) (after_interfaces self.old n) result self.old self.new }
    {
        if n >= 0x8000_0000 {
            return self.refuse(Reason::NegativeLength);
        }
        self.interfaces = n;
        self.interfaces_done()
    }
}
