//! The element names of a stream, and which of them can be written in a filter.
ghost use Rattle.std.specs.Prelude.{◌≡◌, [], ◌∷◌, IfErr, OnOk, string_bytes};
ghost use Rattle.jser_prim.specs.ModifiedUtf8.{utf16_units};
ghost use Rattle.jser_table.specs.Names.{ends_in};
ghost use Rattle.jser_suggest.specs.Suggested.{begins, has, is_plain, is_plain_unit, is_writable};
ghost use Rattle.jser_names.specs.Counts.{names_counted};
ghost use Rattle.jser_suggest.specs.Gathering.{AddsName, GainsAll, IfUnwritable, InsertsName, IsFaultOf, IsNoMemory, IsTold, name_list};

use crate::samples::SampleFault;
use jser_names::NameCounts;
use jser_reader::Stop;
use jser_table::{Element, element_of};
use std::alloc::{AllocError, Global};
use std::collections::BTreeSet;
use std::string::FromUtf16Error;

/// Adds the element name of each checked name of a stream.
pub(crate) fn gather(
    alloc: Global,
    checked: &NameCounts,
    names: &mut BTreeSet<String>,
) -> Result<(), SampleFault>
    ensures gains { OnOk result (GainsAll (names_counted checked.now) (name_list names.old) (name_list names.new)) }
    ensures fault { IfErr result (IfUnwritable (names_counted checked.now)) }
{
    let count = checked.len();
    let mut number: usize = 0;
    'names: while number < count {
        let Some(counted) = checked.get(number) else {
            unreachable!();
        };
        match gather_one(alloc, counted.name, names) {
            Ok(()) => number += 1,
            Err(fault) => return Err(fault),
        }
    }
    Ok(())
}

/// Adds the element name of one checked name.
#[tactic(auto, using(crate::proofs::GatherLemmas::gains_one))]
fn gather_one(alloc: Global, name: &[u16], names: &mut BTreeSet<String>) -> Result<(), SampleFault>
    ensures gains { OnOk result (GainsAll (name.now ∷ []) (name_list names.old) (name_list names.new)) }
    ensures fault { IfErr result (IfUnwritable (name.now ∷ [])) }
{
    match element_of(name) {
        Element::Primitive => Ok(()),
        Element::Malformed => Err(unwritable(alloc, name)),
        Element::Name(class) => add_name(alloc, class, names),
    }
}

/// Adds the name of a class.
#[tactic(auto, using(crate::proofs::GatherLemmas::adds_name, crate::proofs::PlainLemmas::plain_paired))]
fn add_name(alloc: Global, class: &[u16], names: &mut BTreeSet<String>) -> Result<(), SampleFault>
    ensures gains { OnOk result (AddsName class.now (name_list names.old) (name_list names.new)) }
    ensures fault { IfErr result (IsFaultOf class.now) }
{
    if !is_writable(class) || !is_plain(class) {
        return Err(unwritable(alloc, class));
    }
    let text: Result<Result<String, FromUtf16Error>, AllocError> = String::from_utf16(alloc, class);
    match text {
        Err(_) => Err(SampleFault::Stop(Stop::OutOfMemory)),
        Ok(Err(_)) => Err(unwritable(alloc, class)),
        Ok(Ok(text)) => insert(text, names),
    }
}

/// Adds a text, if it is not there.
fn insert(text: String, names: &mut BTreeSet<String>) -> Result<(), SampleFault>
    ensures gains { OnOk result (InsertsName (utf16_units (string_bytes text)) (name_list names.old) (name_list names.new)) }
    ensures fault { IfErr result IsNoMemory }
{
    let Ok(_) = names.insert(text) else {
        return Err(SampleFault::Stop(Stop::OutOfMemory));
    };
    Ok(())
}

/// The fault that tells a name, or that there is no memory to tell it.
fn unwritable(alloc: Global, name: &[u16]) -> SampleFault
    ensures { IsTold name.now result }
{
    let mut units = Vec::new(alloc);
    match units.extend_from_slice(name) {
        Ok(()) => SampleFault::Unwritable(units),
        Err(_) => SampleFault::Stop(Stop::OutOfMemory),
    }
}

/// Whether the piece that spells a name is the pattern that allows it alone.
fn is_writable(name: &[u16]) -> bool
    ensures { result ≡ is_writable name.now }
{
    !(name.is_empty()
        || begins(0x21, name)
        || has(0x3B, name)
        || has(0x3D, name)
        || has(0x2F, name)
        || ends_in(0x2A, name))
}

/// Whether a name has only plain signs.
fn is_plain(name: &[u16]) -> bool
    ensures { result ≡ is_plain name.now }
{
    name.iter().all(|unit| is_plain_unit(*unit))
}

/// Whether a unit is a letter or digit, or one of `_`, `$`, `.` and `-`.
fn is_plain_unit(unit: u16) -> bool
    ensures { result ≡ is_plain_unit unit }
{
    match char::from_u32(u32::from(unit)) {
        Some(sign) => sign.is_alphanumeric() || matches!(sign, '_' | '$' | '.' | '-'),
        None => false,
    }
}

/// Whether a name begins with this unit.
fn begins(unit: u16, name: &[u16]) -> bool
    ensures { result ≡ begins unit name.now }
{
    match name {
        [first, ..] => *first == unit,
        [] => false,
    }
}

/// Whether a name ends in this unit.
#[tactic(auto, using(crate::proofs::GatherLemmas::ends_last))]
fn ends_in(unit: u16, name: &[u16]) -> bool
    ensures { result ≡ ends_in unit name.now }
{
    match name.split_last() {
        Some((last, _)) => *last == unit,
        None => false,
    }
}

/// Whether a name has this unit.
fn has(unit: u16, name: &[u16]) -> bool
    ensures { result ≡ has unit name.now }
{
    name.iter().any(|other| *other == unit)
}
