//! The spelling of a list of contents, written to a sink. It takes no memory: bytes are gathered in an
//! outbox of fixed size.
//!
//! One function for each type of the tree; each writes its parts in the order of the layouts (Java Object
//! Serialization Specification, section 6.4.2).
ghost use Rattle.std.specs.Prelude.{◌≡◌, ◌++◌, ◌+◌, ◌%◌, ◌^◌, ◌∷◌, [], ℕ, length, map, true, false, IfOk, OnOk, IfErr, OnErr};
ghost use Rattle.std.specs.Option.{option_map};
ghost use Rattle.std.specs.Io.KnownBytes.{Appends};
ghost use Rattle.jser_prim.specs.Bytes.{big_bytes};
ghost use Rattle.jser_prim.specs.ModifiedUtf8.{modified_utf8, unit_spelling};
ghost use Rattle.jser_value.specs.Encoding.{field_spelling, section_spelling, plain_head, proxy_head};
ghost use Rattle.jser_value.specs.Encoded.{WroteFirst};
ghost use Rattle.jser_prim.specs.Outgoing.{PutsTo};
ghost use Rattle.jser_value.specs.View.{view_text, view_text_place, view_field, view_prim, view_body, view_class_place, view_content, view_desc, view_value, view_section, view_values, view_sections, view_contents};
ghost use Rattle.jser_grammar.specs.Spelling.{value_spelling, desc_spelling, class_spelling, body_spelling, values_spelling, sections_spelling, notes_spelling, annotation_spelling, content_spelling, contents_spelling, string_spelling, text_place_spelling, type_spelling, fields_spelling, interfaces_spelling, prim_spelling, prims_spelling, utf, long_utf, reference, block_head, spelling};

use crate::contents::Contents;
use crate::tree::{Body, ClassPlace, Content, Desc, Field, Raw, Section, Text, TextPlace, Value};
use jser_grammar::wire::{
    BASE_WIRE_HANDLE, TC_ARRAY, TC_BLOCKDATA, TC_BLOCKDATALONG, TC_CLASS, TC_CLASSDESC,
    TC_ENDBLOCKDATA, TC_ENUM, TC_LONGSTRING, TC_NULL, TC_OBJECT, TC_PROXYCLASSDESC, TC_REFERENCE,
    TC_RESET, TC_STRING,
};
use jser_prim::{Outbox, Sink, spell_unit};
use thiserror::Error;

/// STREAM_MAGIC and STREAM_VERSION.
const HEADER: [u8; 4] = [0xAC, 0xED, 0x00, 0x05];

/// Why a list of contents was not written whole.
#[derive(Clone, Copy, PartialEq, Eq, Debug, Error)]
pub enum EncodeFault {
    /// The sink failed after so many bytes of the spelling.
    #[error("the writer failed after {written} bytes")]
    Write {
        /// How many bytes went out: the first ones of the spelling.
        written: u64,
    },
}

/// Writes the stream of these contents to a sink, and returns its length in bytes.
///
/// It takes no memory. The sink is handed pieces of up to 512 bytes, and longer blocks as they are.
///
/// # Errors
///
/// `EncodeFault::Write` where the sink failed, with how many bytes of the stream went out before.
#[tactic(auto, using(crate::proofs::EncodedLemmas::wrote_all, crate::proofs::EncodedLemmas::wrote_some))]
pub fn encode<W: Sink>(contents: &Contents, sink: &mut W) -> Result<u64, EncodeFault>
    ensures length { IfOk result (λ count. count ≡ length (spelling (view_contents contents.now))) }
    ensures out { OnOk result (Appends (W.gone_out sink.old) (W.gone_out sink.new) (spelling (view_contents contents.now))) }
    ensures written { IfErr result (WroteFirst (W.gone_out sink.old) (W.gone_out sink.new) (spelling (view_contents contents.now))) }
    ensures kept { OnOk result (W.has_failed sink.new ≡ W.has_failed sink.old) }
    ensures failed { OnErr result (W.has_failed sink.new ≡ true) }
{
    let list = contents.list();
    let mut outbox = Outbox::new();
    put_stream(&mut outbox, sink, list);
    let written = outbox.written();
    if outbox.has_failed() {
        return Err(EncodeFault::Write { written });
    }
    Ok(written)
}

/// The header and the contents, all handed to the sink.
#[tactic(auto, using(crate::proofs::EncodedLemmas::puts_stream))]
fn put_stream<W: Sink>(outbox: &mut Outbox, sink: &mut W, contents: &[Content])
    ensures puts { PutsTo W.gone_out W.has_failed outbox.old outbox.new sink.old sink.new (spelling (view_contents contents.now)) }
    ensures empty { outbox.new.failed ≡ false → outbox.new.waiting ≡ [] }
{
    outbox.put(sink, &HEADER);
    put_list(outbox, sink, contents);
    outbox.flush(sink);
}

/// Contents, one after another.
#[tactic(auto, using(jser_prim::proofs::OutgoingLemmas::puts_none))]
fn put_list<W: Sink>(outbox: &mut Outbox, sink: &mut W, contents: &[Content])
    ensures { PutsTo W.gone_out W.has_failed outbox.old outbox.new sink.old sink.new (contents_spelling (view_contents contents.now)) }
{
    for content in contents {
        put_content(outbox, sink, content);
    }
}

/// A raw value, in as many bytes as its type has.
fn put_prim<W: Sink>(outbox: &mut Outbox, sink: &mut W, prim: Raw)
    ensures { PutsTo W.gone_out W.has_failed outbox.old outbox.new sink.old sink.new (prim_spelling (view_prim prim)) }
{
    match prim {
        Raw::B(bits) => outbox.put_u8(sink, bits),
        Raw::C(bits) => outbox.put_u16(sink, bits),
        Raw::D(bits) => outbox.put_u64(sink, bits),
        Raw::F(bits) => outbox.put_u32(sink, bits),
        Raw::I(bits) => outbox.put_u32(sink, bits),
        Raw::J(bits) => outbox.put_u64(sink, bits),
        Raw::S(bits) => outbox.put_u16(sink, bits),
        Raw::Z(bits) => outbox.put_u8(sink, bits),
    }
}

/// The text of a name or of a short string: its length in two bytes, and its modified UTF-8.
#[tactic(auto, using(crate::proofs::EncodeLemmas::puts_utf))]
fn put_utf<W: Sink>(outbox: &mut Outbox, sink: &mut W, units: &[u16])
    ensures { PutsTo W.gone_out W.has_failed outbox.old outbox.new sink.old sink.new (utf units.now) }
{
    outbox.put_u16(sink, (text_len(units) % 0x1_0000) as u16);
    put_units(outbox, sink, units);
}

/// The text of a long string: its length in eight bytes, and its modified UTF-8.
#[tactic(auto, using(crate::proofs::EncodeLemmas::puts_long_utf))]
fn put_long_utf<W: Sink>(outbox: &mut Outbox, sink: &mut W, units: &[u16])
    ensures { PutsTo W.gone_out W.has_failed outbox.old outbox.new sink.old sink.new (long_utf units.now) }
{
    outbox.put_u64(sink, text_len(units));
    put_units(outbox, sink, units);
}

/// The length of a text's modified UTF-8, as far as 64 bits tell it.
#[tactic(auto, using(crate::proofs::EncodeLemmas::text_len_more))]
fn text_len(units: &[u16]) -> u64
    ensures { result ≡ length (modified_utf8 units.now) % 2 ^ 64 }
{
    let mut len = 0u64;
    for unit in units {
        len = len.wrapping_add(spell_unit(*unit, &mut [0; 3]).len() as u64);
    }
    len
}

/// The modified UTF-8 of a text.
#[tactic(auto, using(jser_prim::proofs::OutgoingLemmas::puts_none, crate::proofs::EncodeLemmas::puts_unit))]
fn put_units<W: Sink>(outbox: &mut Outbox, sink: &mut W, units: &[u16])
    ensures { PutsTo W.gone_out W.has_failed outbox.old outbox.new sink.old sink.new (modified_utf8 units.now) }
{
    for unit in units {
        put_unit(outbox, sink, *unit);
    }
}

/// The spelling of a unit.
fn put_unit<W: Sink>(outbox: &mut Outbox, sink: &mut W, unit: u16)
    ensures { PutsTo W.gone_out W.has_failed outbox.old outbox.new sink.old sink.new (unit_spelling unit) }
{
    outbox.put(sink, spell_unit(unit, &mut [0; 3]));
}

/// A reference: its tag and its handle.
#[tactic(auto, using(crate::proofs::EncodeLemmas::puts_reference))]
fn put_reference<W: Sink>(outbox: &mut Outbox, sink: &mut W, number: u32)
    ensures { PutsTo W.gone_out W.has_failed outbox.old outbox.new sink.old sink.new (reference number) }
{
    outbox.put_u8(sink, TC_REFERENCE);
    outbox.put_u32(sink, BASE_WIRE_HANDLE.wrapping_add(number));
}

/// A string behind its tag.
#[tactic(auto, using(crate::proofs::EncodeLemmas::puts_long_string, crate::proofs::EncodeLemmas::puts_short_string))]
fn put_text<W: Sink>(outbox: &mut Outbox, sink: &mut W, text: &Text)
    ensures { PutsTo W.gone_out W.has_failed outbox.old outbox.new sink.old sink.new (string_spelling text.now.long text.now.units.items) }
{
    if text.long {
        outbox.put_u8(sink, TC_LONGSTRING);
        put_long_utf(outbox, sink, &text.units);
    } else {
        outbox.put_u8(sink, TC_STRING);
        put_utf(outbox, sink, &text.units);
    }
}

/// A string or a reference to one.
fn put_text_place<W: Sink>(outbox: &mut Outbox, sink: &mut W, place: &TextPlace)
    ensures { PutsTo W.gone_out W.has_failed outbox.old outbox.new sink.old sink.new (text_place_spelling (view_text_place place.now)) }
{
    match place {
        TextPlace::New(text) => put_text(outbox, sink, text),
        TextPlace::Back(number) => put_reference(outbox, sink, *number),
    }
}

/// The type of a field, where there is one.
#[tactic(auto, using(jser_prim::proofs::OutgoingLemmas::puts_none))]
fn put_type<W: Sink>(outbox: &mut Outbox, sink: &mut W, place: &Option<TextPlace>)
    ensures { PutsTo W.gone_out W.has_failed outbox.old outbox.new sink.old sink.new (type_spelling (option_map view_text_place place.now)) }
{
    match place {
        Some(place) => put_text_place(outbox, sink, place),
        None => {}
    }
}

/// A field: its code, its name and its type.
#[tactic(auto, using(crate::proofs::EncodeLemmas::puts_field))]
fn put_field<W: Sink>(outbox: &mut Outbox, sink: &mut W, field: &Field)
    ensures { PutsTo W.gone_out W.has_failed outbox.old outbox.new sink.old sink.new (field_spelling (view_field field.now)) }
{
    outbox.put_u8(sink, field.code);
    put_utf(outbox, sink, &field.name);
    put_type(outbox, sink, &field.text);
}

/// The fields of a descriptor, one after another.
#[tactic(auto, using(jser_prim::proofs::OutgoingLemmas::puts_none))]
fn put_fields<W: Sink>(outbox: &mut Outbox, sink: &mut W, fields: &[Field])
    ensures { PutsTo W.gone_out W.has_failed outbox.old outbox.new sink.old sink.new (fields_spelling (map view_field fields.now)) }
{
    for field in fields {
        put_field(outbox, sink, field);
    }
}

/// The names of interfaces, one after another.
#[tactic(auto, using(jser_prim::proofs::OutgoingLemmas::puts_none))]
fn put_interfaces<W: Sink>(outbox: &mut Outbox, sink: &mut W, names: &[Vec<u16>])
    ensures { PutsTo W.gone_out W.has_failed outbox.old outbox.new sink.old sink.new (interfaces_spelling (map (λ name. name.items) names.now)) }
{
    for name in names {
        put_utf(outbox, sink, name);
    }
}

/// Raw values, one after another.
#[tactic(auto, using(jser_prim::proofs::OutgoingLemmas::puts_none))]
fn put_prims<W: Sink>(outbox: &mut Outbox, sink: &mut W, prims: &[Raw])
    ensures { PutsTo W.gone_out W.has_failed outbox.old outbox.new sink.old sink.new (prims_spelling (map view_prim prims.now)) }
{
    for prim in prims {
        put_prim(outbox, sink, *prim);
    }
}

/// A value.
#[cycle(encode)]
#[tactic(auto, using(jser_prim::proofs::OutgoingLemmas::puts_tagged, crate::proofs::EncodeLemmas::puts_classed))]
fn put_value<W: Sink>(outbox: &mut Outbox, sink: &mut W, value: &Value)
    ensures { PutsTo W.gone_out W.has_failed outbox.old outbox.new sink.old sink.new (value_spelling (view_value value.now)) }
{
    match value {
        Value::Null => outbox.put_u8(sink, TC_NULL),
        Value::Back(number) => put_reference(outbox, sink, *number),
        Value::Text(text) => put_text(outbox, sink, text),
        Value::Desc(desc) => put_desc(outbox, sink, desc),
        Value::ClassObject(descr) => {
            outbox.put_u8(sink, TC_CLASS);
            put_class(outbox, sink, descr);
        }
        Value::Array { descr, body } => {
            outbox.put_u8(sink, TC_ARRAY);
            put_class(outbox, sink, descr);
            put_body(outbox, sink, body);
        }
        Value::EnumConst { descr, name } => {
            outbox.put_u8(sink, TC_ENUM);
            put_class(outbox, sink, descr);
            put_text_place(outbox, sink, name);
        }
        Value::Object { descr, sections } => {
            outbox.put_u8(sink, TC_OBJECT);
            put_class(outbox, sink, descr);
            put_sections(outbox, sink, sections);
        }
    }
}

/// What stands in a class place.
#[cycle(encode)]
fn put_class<W: Sink>(outbox: &mut Outbox, sink: &mut W, place: &ClassPlace)
    ensures { PutsTo W.gone_out W.has_failed outbox.old outbox.new sink.old sink.new (class_spelling (view_class_place place.now)) }
{
    match place {
        ClassPlace::New(desc) => put_desc(outbox, sink, desc),
        ClassPlace::Back(number) => put_reference(outbox, sink, *number),
        ClassPlace::Null => outbox.put_u8(sink, TC_NULL),
    }
}

/// A class descriptor.
#[cycle(encode)]
#[tactic(auto, using(crate::proofs::EncodeLemmas::puts_plain, crate::proofs::EncodeLemmas::puts_proxy))]
fn put_desc<W: Sink>(outbox: &mut Outbox, sink: &mut W, desc: &Desc)
    ensures { PutsTo W.gone_out W.has_failed outbox.old outbox.new sink.old sink.new (desc_spelling (view_desc desc.now)) }
{
    match desc {
        Desc::Plain {
            name,
            suid,
            flags,
            fields,
            notes,
            parent,
        } => {
            put_plain_head(outbox, sink, name, *suid, *flags, fields);
            put_annotation(outbox, sink, notes);
            put_class(outbox, sink, parent);
        }
        Desc::Proxy {
            interfaces,
            notes,
            parent,
        } => {
            put_proxy_head(outbox, sink, interfaces);
            put_annotation(outbox, sink, notes);
            put_class(outbox, sink, parent);
        }
    }
}

/// The elements of an array, behind their number.
#[cycle(encode)]
#[tactic(auto, using(crate::proofs::EncodeLemmas::puts_raw_body, crate::proofs::EncodeLemmas::puts_value_body))]
fn put_body<W: Sink>(outbox: &mut Outbox, sink: &mut W, body: &Body)
    ensures { PutsTo W.gone_out W.has_failed outbox.old outbox.new sink.old sink.new (body_spelling (view_body body.now)) }
{
    match body {
        Body::Prims(prims) => {
            put_length(outbox, sink, prims.len());
            put_prims(outbox, sink, prims);
        }
        Body::Values(values) => {
            put_length(outbox, sink, values.len());
            put_values(outbox, sink, values);
        }
    }
}

/// Values, one after another.
#[cycle(encode)]
#[tactic(auto, using(jser_prim::proofs::OutgoingLemmas::puts_none))]
fn put_values<W: Sink>(outbox: &mut Outbox, sink: &mut W, values: &Vec<Value>)
    ensures { PutsTo W.gone_out W.has_failed outbox.old outbox.new sink.old sink.new (values_spelling (view_values values.now.items)) }
{
    for value in values {
        put_value(outbox, sink, value);
    }
}

/// The sections of an object, one after another.
#[cycle(encode)]
#[tactic(auto, using(jser_prim::proofs::OutgoingLemmas::puts_none))]
fn put_sections<W: Sink>(outbox: &mut Outbox, sink: &mut W, sections: &Vec<Section>)
    ensures { PutsTo W.gone_out W.has_failed outbox.old outbox.new sink.old sink.new (sections_spelling (view_sections sections.now.items)) }
{
    for section in sections {
        put_section(outbox, sink, section);
    }
}

/// What one class of an object's chain wrote.
#[cycle(encode)]
#[tactic(auto, using(crate::proofs::EncodeLemmas::puts_section, crate::proofs::EncodeLemmas::puts_bare_section))]
fn put_section<W: Sink>(outbox: &mut Outbox, sink: &mut W, section: &Section)
    ensures { PutsTo W.gone_out W.has_failed outbox.old outbox.new sink.old sink.new (section_spelling (view_section section.now)) }
{
    put_prims(outbox, sink, &section.prims);
    put_values(outbox, sink, &section.values);
    if let Some(notes) = &section.notes {
        put_annotation(outbox, sink, notes);
    }
}

/// An annotation and its end.
#[cycle(encode)]
#[tactic(auto, using(crate::proofs::EncodeLemmas::puts_annotation))]
fn put_annotation<W: Sink>(outbox: &mut Outbox, sink: &mut W, contents: &Vec<Content>)
    ensures { PutsTo W.gone_out W.has_failed outbox.old outbox.new sink.old sink.new (annotation_spelling (view_contents contents.now.items)) }
{
    put_contents(outbox, sink, contents);
    outbox.put_u8(sink, TC_ENDBLOCKDATA);
}

/// Contents, one after another.
#[cycle(encode)]
#[tactic(auto, using(jser_prim::proofs::OutgoingLemmas::puts_none))]
fn put_contents<W: Sink>(outbox: &mut Outbox, sink: &mut W, contents: &Vec<Content>)
    ensures { PutsTo W.gone_out W.has_failed outbox.old outbox.new sink.old sink.new (contents_spelling (view_contents contents.now.items)) }
{
    for content in contents {
        put_content(outbox, sink, content);
    }
}

/// A content.
#[cycle(encode)]
#[tactic(auto, using(jser_prim::proofs::OutgoingLemmas::puts_both))]
fn put_content<W: Sink>(outbox: &mut Outbox, sink: &mut W, content: &Content)
    ensures { PutsTo W.gone_out W.has_failed outbox.old outbox.new sink.old sink.new (content_spelling (view_content content.now)) }
{
    match content {
        Content::Block { long, bytes } => {
            put_block_head(outbox, sink, *long, bytes.len());
            outbox.put(sink, bytes);
        }
        Content::Reset => outbox.put_u8(sink, TC_RESET),
        Content::Value(value) => put_value(outbox, sink, value),
    }
}

/// The tag and the size of a block.
#[tactic(auto, using(crate::proofs::EncodeLemmas::puts_long_head, crate::proofs::EncodeLemmas::puts_short_head))]
fn put_block_head<W: Sink>(outbox: &mut Outbox, sink: &mut W, long: bool, size: usize)
    ensures { PutsTo W.gone_out W.has_failed outbox.old outbox.new sink.old sink.new (block_head long size) }
{
    if long {
        outbox.put_u8(sink, TC_BLOCKDATALONG);
        put_length(outbox, sink, size);
    } else {
        outbox.put_u8(sink, TC_BLOCKDATA);
        outbox.put_u8(sink, (size % 0x100) as u8);
    }
}

/// A length in four bytes.
#[tactic(auto, using(crate::proofs::EncodeLemmas::puts_length))]
fn put_length<W: Sink>(outbox: &mut Outbox, sink: &mut W, len: usize)
    ensures { PutsTo W.gone_out W.has_failed outbox.old outbox.new sink.old sink.new (big_bytes 4 len) }
{
    outbox.put_u32(sink, (len % 0x1_0000_0000) as u32);
}

/// A plain descriptor as far as its fields.
#[tactic(auto, using(crate::proofs::EncodeLemmas::puts_plain_head))]
fn put_plain_head<W: Sink>(
    outbox: &mut Outbox,
    sink: &mut W,
    name: &[u16],
    suid: u64,
    flags: u8,
    fields: &[Field],
)
    ensures { PutsTo W.gone_out W.has_failed outbox.old outbox.new sink.old sink.new (plain_head name.now suid flags (map view_field fields.now)) }
{
    outbox.put_u8(sink, TC_CLASSDESC);
    put_utf(outbox, sink, name);
    outbox.put_u64(sink, suid);
    outbox.put_u8(sink, flags);
    outbox.put_u16(sink, (fields.len() % 0x1_0000) as u16);
    put_fields(outbox, sink, fields);
}

/// A proxy descriptor as far as its interfaces.
#[tactic(auto, using(crate::proofs::EncodeLemmas::puts_proxy_head))]
fn put_proxy_head<W: Sink>(outbox: &mut Outbox, sink: &mut W, interfaces: &[Vec<u16>])
    ensures { PutsTo W.gone_out W.has_failed outbox.old outbox.new sink.old sink.new (proxy_head (map (λ name. name.items) interfaces.now)) }
{
    outbox.put_u8(sink, TC_PROXYCLASSDESC);
    put_length(outbox, sink, interfaces.len());
    put_interfaces(outbox, sink, interfaces);
}
