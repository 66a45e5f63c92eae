//! The example of the README of `jser_prim`.

// README: jser_prim
use jser_prim::{TextScan, read_u16};

/// Whether the bytes are a two-byte length and a text of that length.
fn is_short_text(bytes: &[u8]) -> bool {
    let [high, low, text @ ..] = bytes else {
        return false;
    };
    let len = read_u16(&[*high, *low]);
    if text.len() != len as usize {
        return false;
    }
    let mut scan = TextScan::new(u64::from(len));
    scan.push_all(text).is_ok() && scan.is_done()
}
// end

#[test]
fn short_texts(rt: HostRuntime) {
    assert!(rt; is_short_text(&[0, 3, 0x61, 0xC3, 0xA9]));
    assert!(rt; !is_short_text(&[0, 2, 0x61]) && !is_short_text(&[0, 1, 0xC3]));
}
