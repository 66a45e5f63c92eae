//! The spelling of units and of texts.

use jser_prim::{read_units, spell_unit, text_bytes, units_of};
use std::alloc::Global;
use std::process::Abort;
use std::test::Fail;

#[test]
fn spell_six_units(rt: HostRuntime) -> Result<(), Fail> {
    let units = [0x0000, 0x007F, 0x0080, 0x07FF, 0x0800, 0xFFFF];
    let bytes = text_bytes(rt.alloc(), &units)?;
    let spelling = [
        0xC0, 0x80, 0x7F, 0xC2, 0x80, 0xDF, 0xBF, 0xE0, 0xA0, 0x80, 0xEF, 0xBF, 0xBF,
    ];
    same!(rt; bytes.as_slice(), spelling.as_slice());
    Ok(())
}

#[test]
fn spell_each_form(rt: HostRuntime) {
    let mut buffer = [0; 3];
    for (unit, spelling) in [
        (0x0000, &[0xC0, 0x80][..]),
        (0x0061, &[0x61]),
        (0x00E9, &[0xC3, 0xA9]),
        (0x4E00, &[0xE4, 0xB8, 0x80]),
        (0xD800, &[0xED, 0xA0, 0x80]),
    ] {
        same!(rt; spell_unit(unit, &mut buffer), spelling, format_args!("{unit:04x}"));
    }
}

#[test]
fn units_of_two(rt: HostRuntime) -> Result<(), Fail> {
    let units = units_of(rt.alloc(), "a\u{1F600}")?;
    same!(rt; units.as_slice(), [0x0061, 0xD83D, 0xDE00].as_slice());
    Ok(())
}

#[test]
fn read_units_of_each_length(rt: HostRuntime) -> Result<(), Fail> {
    let mut units = Vec::new(rt.alloc());
    units.push(0x0041)?;
    let bytes = b"a\xC0\x80\xC3\xA9\xE4\xB8\x80\xED\xA0\xBD";
    holds!(rt; read_units(bytes, &mut units)?);
    same!(rt; units.as_slice(), [0x0061, 0x0000, 0x00E9, 0x4E00, 0xD83D].as_slice());
    holds!(rt; read_units(b"", &mut units)?);
    same!(rt; units.as_slice(), [].as_slice());
    Ok(())
}

/// Bytes that are no text: a null, a lone continuation, a long spelling, and units of two and three bytes that are cut.
const NO_TEXTS: [&[u8]; 7] = [
    b"a\x00",
    b"\x80",
    b"\xC1\x81",
    b"\xE0\x9F\xBF",
    b"\xF0\x9F\x98\x80",
    b"a\xC3",
    b"a\xE4\xB8",
];

#[test]
fn read_units_of_no_text(rt: HostRuntime) -> Result<(), Fail> {
    let mut units = Vec::new(rt.alloc());
    for bytes in &NO_TEXTS {
        let is_text = read_units(bytes, &mut units)?;
        same!(rt; is_text, false, format_args!("{bytes:?}"));
    }
    Ok(())
}

/// Texts, each with its spelling.
const SPELLINGS: [(&str, &[u8]); 4] = [
    ("", b""),
    ("a", b"a"),
    ("serial", b"serial"),
    (
        "\u{0}\u{e9}\u{4e00}\u{1F600}",
        b"\xC0\x80\xC3\xA9\xE4\xB8\x80\xED\xA0\xBD\xED\xB8\x80",
    ),
];

/// The bytes of a text, where memory suffices.
fn bytes_of(alloc: Global, text: &str) -> Option<Vec<u8>> {
    let units = units_of(alloc, text).ok()?;
    text_bytes(alloc, &units).ok()
}

/// The text has this spelling, or memory ran out.
fn compare_spelling(rt: &impl Abort, alloc: Global, text: &str, spelling: &[u8]) {
    if let Some(bytes) = bytes_of(alloc, text) {
        same!(rt; bytes.as_slice(), spelling, format_args!("{text:?}"));
    }
}

/// The spelling is that of a text, whose units have it, or memory ran out.
fn compare_reading(rt: &impl Abort, alloc: Global, spelling: &[u8]) {
    let mut units = Vec::new(alloc);
    let Ok(is_text) = read_units(spelling, &mut units) else {
        return;
    };
    same!(rt; is_text, true, format_args!("{spelling:?}"));
    if let Ok(bytes) = text_bytes(alloc, &units) {
        same!(rt; bytes.as_slice(), spelling, format_args!("{spelling:?}"));
    }
}

/// Where an allocation is refused, the answer is that memory ran out, and no other answer changes. (Where
/// memory suffices this shows nothing beyond the tests above: run it with refused allocations.)
#[test]
fn refused_growth_changes_no_answer(rt: HostRuntime) {
    for (text, spelling) in &SPELLINGS {
        compare_spelling(&rt, rt.alloc(), text, spelling);
        compare_reading(&rt, rt.alloc(), spelling);
    }
}
