//! Each caller on a worked case.
use crate::heads::write_head;
use crate::numbers::{handle, is_header, is_known};
use crate::records::write_record;
use crate::sinks::{begun, give_byte, given, is_delivered, is_lost, is_open};
use crate::sources::{fails_now, last_taken, opened, take_again};
use crate::spelling::{read_for_both, spelled, spells};
use crate::texts::{
    behind_field, can_begin, drained, ends_with, faulty_byte, first_fault, goes_on_after_fault,
    is_complete_after, is_mended, is_plain_text, is_text, is_text_in_two, is_whole, last_letter,
    own_bytes, push_again, push_more, push_pair, push_piece, units_in,
};
use jser_prim::{Failed, TextFault, TextScan, ToWrite};
use std::test::Fail;

#[test]
fn numbers(rt: HostRuntime) {
    holds!(rt; is_header(&[0xAC, 0xED, 0x00, 0x05]) && !is_header(&[0xAC, 0xED, 0x00, 0x04]));
    same!(rt; handle(&[0x00, 0x7E, 0x00, 0x03]), Some(3));
    same!(rt; handle(&[0x00, 0x7D, 0xFF, 0xFF]), None);
    holds!(rt; is_known(&[0, 0, 0, 0, 0, 0, 1, 2], 258));
}

#[test]
fn spellings(rt: HostRuntime) -> Result<(), Fail> {
    let bytes = spelled(rt.alloc(), "a\0")?;
    same!(rt; bytes.as_slice(), [0x61, 0xC0, 0x80].as_slice());
    holds!(rt; spells(&[0xC3, 0xA9], 0xE9) && !spells(&[0xC3], 0xE9));
    let mut first = vec![in rt.alloc(); 0x7A]?;
    let mut second = Vec::new(rt.alloc());
    holds!(rt; read_for_both(&[0x61, 0xC3, 0xA9], &mut first, &mut second)?);
    holds!(rt; first.as_slice() == [0x61, 0xE9].as_slice() && first == second);
    Ok(())
}

#[test]
fn whole_texts(rt: HostRuntime) -> Result<(), Fail> {
    holds!(rt; is_text(b"abc") && !is_text(&[0x61, 0xFF]));
    holds!(rt; is_text_in_two(&[0x61, 0xC3], &[0xA9]) && !is_text_in_two(&[0x61, 0xC3], &[0x61]));
    holds!(rt; is_whole(2, b"ab") && !is_whole(3, b"ab"));
    holds!(rt; is_plain_text(b"ab") && !is_plain_text(&[0xC3, 0xA9]));
    same!(rt; first_fault(&[0x61, 0x62, 0x00]), Some(2));
    holds!(rt; can_begin(2, 0xC3) && !can_begin(1, 0xC3));
    let units = units_in(rt.alloc(), &[0x61, 0xC3, 0xA9])?;
    holds!(rt; units.is_some_and(|units| units.as_slice() == [0x61, 0xE9].as_slice()));
    holds!(rt; units_in(rt.alloc(), &[0xC3])?.is_none());
    Ok(())
}

/// A field is found where 16 bytes are left for each load of it, wherever it ends among them.
#[test]
fn plain_fields(rt: HostRuntime) {
    let record = b"abcdefghijklmnop\0rstuvwxyzABCDEFGHIJKLMNOPQR\x80TUVWXYZabcdefghi";
    for (from, to, letter) in [
        (0, 1, Some(b'a')),
        (0, 16, Some(b'p')),
        (0, 17, None),
        (17, 40, Some(b'N')),
        (17, 44, Some(b'R')),
        (17, 45, None),
        (45, 46, Some(b'T')),
        (46, 47, None),
        (60, 62, None),
    ] {
        same!(rt; last_letter(record, from, to), letter, format_args!("{from} {to}"));
    }
    same!(rt; behind_field(record, 17, 44), record.get(44..));
}

#[test]
fn texts_in_pieces(rt: HostRuntime) {
    same!(rt; push_more(&mut TextScan::new(0), 0x61), None);
    same!(rt; own_bytes(&TextScan::new(2), b"abc"), 2);
    same!(rt; own_bytes(&TextScan::new(4), b"abc"), 3);
    holds!(rt; ends_with(&mut TextScan::new(1), 0x61) && !ends_with(&mut TextScan::new(2), 0x61));
}

#[test]
fn whole_units_in_pieces(rt: HostRuntime) {
    holds!(rt; push_pair(&mut TextScan::new(2), 0xC3, 0xA9));
    let mut scan = TextScan::new(5);
    holds!(rt; push_piece(&mut scan, b"ab") && push_piece(&mut scan, &[0xC3, 0xA9]));
    holds!(rt; !push_piece(&mut scan, &[0xC3]));
    same!(rt; push_again(&mut TextScan::new(1), 0xC3), Err(TextFault));
    holds!(rt; is_complete_after(&mut TextScan::new(1), b"a"));
    holds!(rt; !is_complete_after(&mut TextScan::new(2), b"a"));
}

#[test]
fn faulty_texts_in_pieces(rt: HostRuntime) {
    same!(rt; faulty_byte(&mut TextScan::new(2), &[0x61, 0x00]), Some(0x00));
    holds!(rt; !goes_on_after_fault(&mut TextScan::new(2), &[0x61, 0x00], 0x61));
    let mut scan = TextScan::new(3);
    if scan.push(0x00).is_err() {
        holds!(rt; !drained(&mut scan, b"a", b"bc"));
        holds!(rt; !is_mended(&mut scan, 0x61));
        holds!(rt; !is_complete_after(&mut scan, b""));
    }
}

#[test]
fn sources(rt: HostRuntime) {
    let mut buf = [0u8; 2];
    let Some((mut source, count)) = opened(&b"abcd"[..], &mut buf) else {
        return;
    };
    same!(rt; count, 2);
    same!(rt; last_taken(&mut source, &mut buf), Some(b'd'));
    same!(rt; take_again(&mut source, &mut buf), Ok(0));
    holds!(rt; !fails_now(&mut source, &mut buf));
}

#[test]
fn sinks(rt: HostRuntime) {
    holds!(rt; is_lost(&mut ToWrite::new(&mut [][..]), b"a"));
    holds!(rt; is_delivered(&mut ToWrite::new(&mut [0u8; 2][..]), b"ab"));
    same!(rt; given(&mut ToWrite::new(&mut [0u8; 2][..]), b"abc"), 2);
}

#[test]
fn a_sink_that_is_full(rt: HostRuntime) {
    let mut page = [0u8; 2];
    let Some(mut sink) = begun(&mut page[..], b'a') else {
        return;
    };
    same!(rt; give_byte(&mut sink, b'b'), Ok(()));
    holds!(rt; is_open(&sink));
    same!(rt; give_byte(&mut sink, b'c'), Err(Failed));
    holds!(rt; !is_open(&sink));
}

#[test]
fn records(rt: HostRuntime) {
    let mut page = [0u8; 7];
    same!(rt; write_record(&mut ToWrite::new(&mut page[..]), b"abc"), Some(7));
    same!(rt; page, [0, 0, 0, 3, 0x61, 0x62, 0x63]);
    let mut short = [0u8; 6];
    same!(rt; write_record(&mut ToWrite::new(&mut short[..]), b"abc"), None);
    same!(rt; short, [0, 0, 0, 3, 0x61, 0x62]);
}

#[test]
fn heads(rt: HostRuntime) {
    let mut page = [0u8; 11];
    let written = write_head(&mut ToWrite::new(&mut page[..]), 7, 0x0102, 0x0304_0506);
    same!(rt; written, Some(11));
    same!(rt; page, [7, 1, 2, 0, 0, 0, 0, 3, 4, 5, 6]);
    same!(rt; write_head(&mut ToWrite::new(&mut [][..]), 7, 1, 2), None);
}
