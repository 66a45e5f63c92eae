//! Numbers in words: decimal, hexadecimal, and the marks of handles.
ghost use Rattle.std.specs.Prelude.{◌≡◌, ◌≤◌, ◌+◌, ◌++◌, ◌∷◌, true, length};
ghost use Rattle.std.specs.Fmt.{decimal};
ghost use Rattle.hex.specs.Hex.{encode_lower};
ghost use Rattle.jser_prim.specs.Bytes.{big_bytes};
ghost use Rattle.jser_shown.specs.Words.{end_line, mark, without_zeros};
ghost use Rattle.jser_printer.specs.Says.{SaysTo};

use crate::words::line::write;
use byteorder::{BigEndian, ByteOrder};
use itoa::Buffer;
use jser_grammar::wire::BASE_WIRE_HANDLE;
use jser_prim::{Outbox, Sink};

/// How many bytes are put in hexadecimal at a time.
const PIECE: usize = 64;

/// Writes a number in decimal.
pub fn write_decimal<W: Sink>(outbox: &mut Outbox, sink: &mut W, number: u64)
    ensures { SaysTo W.gone_out W.has_failed outbox.old outbox.new sink.old sink.new (λ k. decimal number ++ k) }
{
    let mut buffer = Buffer::new();
    write(outbox, sink, buffer.format(number).as_bytes());
}

/// Writes bytes in lower-case hexadecimal, two digits a byte.
pub fn write_hex<W: Sink>(outbox: &mut Outbox, sink: &mut W, bytes: &[u8])
    ensures { SaysTo W.gone_out W.has_failed outbox.old outbox.new sink.old sink.new (λ k. encode_lower bytes.now ++ k) }
{
    match bytes.len() {
        4 => write_hex_of_four(outbox, sink, bytes),
        8 => write_hex_of_eight(outbox, sink, bytes),
        _ => write_hex_pieces(outbox, sink, bytes),
    }
}

/// Writes four bytes in hexadecimal.
#[inline(always)]
fn write_hex_of_four<W: Sink>(outbox: &mut Outbox, sink: &mut W, bytes: &[u8])
    requires { length bytes.now ≡ 4 }
    ensures { SaysTo W.gone_out W.has_failed outbox.old outbox.new sink.old sink.new (λ k. encode_lower bytes.now ++ k) }
{
    let mut digits = [0; 8];
    match hex::encode_to_slice(bytes, &mut digits) {
        Ok(()) => {}
        Err(_) => unreachable!(),
    }
    write(outbox, sink, &digits);
}

/// Writes eight bytes in hexadecimal.
#[inline(always)]
fn write_hex_of_eight<W: Sink>(outbox: &mut Outbox, sink: &mut W, bytes: &[u8])
    requires { length bytes.now ≡ 8 }
    ensures { SaysTo W.gone_out W.has_failed outbox.old outbox.new sink.old sink.new (λ k. encode_lower bytes.now ++ k) }
{
    let mut digits = [0; 16];
    match hex::encode_to_slice(bytes, &mut digits) {
        Ok(()) => {}
        Err(_) => unreachable!(),
    }
    write(outbox, sink, &digits);
}

/// Writes bytes in hexadecimal, a piece at a time.
fn write_hex_pieces<W: Sink>(outbox: &mut Outbox, sink: &mut W, bytes: &[u8])
    ensures { SaysTo W.gone_out W.has_failed outbox.old outbox.new sink.old sink.new (λ k. encode_lower bytes.now ++ k) }
{
    let mut rest = bytes;
    'pieces: while rest.len() > PIECE {
        if outbox.has_failed() {
            return;
        }
        let (piece, after) = rest.split_at(PIECE);
        write_hex_piece(outbox, sink, piece);
        rest = after;
    }
    write_hex_piece(outbox, sink, rest);
}

/// Writes a few bytes in hexadecimal.
fn write_hex_piece<W: Sink>(outbox: &mut Outbox, sink: &mut W, bytes: &[u8])
    requires { length bytes.now ≤ 64 }
    ensures { SaysTo W.gone_out W.has_failed outbox.old outbox.new sink.old sink.new (λ k. encode_lower bytes.now ++ k) }
{
    let mut digits = [0; 2 * PIECE];
    let room = &mut digits[..2 * bytes.len()];
    match hex::encode_to_slice(bytes, room) {
        Ok(()) => {}
        Err(_) => unreachable!(),
    }
    write(outbox, sink, room);
}

/// Writes the mark of the handle with this number in this epoch, as `#0.7e0000`.
pub(crate) fn write_mark<W: Sink>(outbox: &mut Outbox, sink: &mut W, epoch: u64, number: u64)
    ensures { SaysTo W.gone_out W.has_failed outbox.old outbox.new sink.old sink.new (λ k. mark epoch number k) }
{
    write_epoch(outbox, sink, epoch);
    write_handle(outbox, sink, number);
}

/// Writes the first part of a mark.
#[tactic(auto, using(crate::proofs::SaysLemmas::says_first_epoch))]
#[inline(always)]
fn write_epoch<W: Sink>(outbox: &mut Outbox, sink: &mut W, epoch: u64)
    ensures { SaysTo W.gone_out W.has_failed outbox.old outbox.new sink.old sink.new (λ k. 0x23 ∷ (decimal epoch ++ (0x2E ∷ k))) }
{
    match epoch {
        0 => write(outbox, sink, b"#0."),
        _ => write_later_epoch(outbox, sink, epoch),
    }
}

/// Writes the first part of a mark, whatever the epoch is.
#[inline(never)]
fn write_later_epoch<W: Sink>(outbox: &mut Outbox, sink: &mut W, epoch: u64)
    ensures { SaysTo W.gone_out W.has_failed outbox.old outbox.new sink.old sink.new (λ k. 0x23 ∷ (decimal epoch ++ (0x2E ∷ k))) }
{
    write(outbox, sink, b"#");
    write_decimal(outbox, sink, epoch);
    write(outbox, sink, b".");
}

/// Writes a mark, and the end of its line.
pub(crate) fn write_mark_line<W: Sink>(outbox: &mut Outbox, sink: &mut W, epoch: u64, number: u64)
    ensures { SaysTo W.gone_out W.has_failed outbox.old outbox.new sink.old sink.new (λ k. mark epoch number (end_line k)) }
{
    write_mark(outbox, sink, epoch, number);
    write(outbox, sink, b"\n");
}

/// Writes a handle as it is written, in hexadecimal without zeros at the beginning.
#[inline(always)]
fn write_handle<W: Sink>(outbox: &mut Outbox, sink: &mut W, number: u64)
    ensures { SaysTo W.gone_out W.has_failed outbox.old outbox.new sink.old sink.new (λ k. without_zeros (encode_lower (big_bytes 4 (BASE_WIRE_HANDLE + number))) ++ k) }
{
    let mut bytes = [0; 4];
    BigEndian::write_u32(&mut bytes, handle_written(number));
    let mut digits = [0; 8];
    match hex::encode_to_slice(bytes.as_slice(), &mut digits) {
        Ok(()) => {}
        Err(_) => unreachable!(),
    }
    write_without_zeros(outbox, sink, &digits);
}

/// Writes digits without the zeros at the beginning. Nearly always there are two of these.
#[tactic(auto, using(crate::proofs::SaysLemmas::says_significant))]
#[inline(always)]
fn write_without_zeros<W: Sink>(outbox: &mut Outbox, sink: &mut W, digits: &[u8])
    ensures { SaysTo W.gone_out W.has_failed outbox.old outbox.new sink.old sink.new (λ k. without_zeros digits.now ++ k) }
{
    match digits {
        [b'0', b'0', rest @ ..] if is_significant(rest) => write(outbox, sink, rest),
        _ => write(outbox, sink, without_first_zeros(digits)),
    }
}

/// Whether the text does not begin with a zero.
#[inline(always)]
fn is_significant(text: &[u8]) -> bool
    ensures { result ≡ true → without_zeros text.now ≡ text.now }
{
    match text {
        [b'0', ..] => false,
        _ => true,
    }
}

/// A handle as it is written, in 32 bits.
fn handle_written(number: u64) -> u32
    ensures { big_bytes 4 result ≡ big_bytes 4 (BASE_WIRE_HANDLE + number) }
{
    (u64::from(BASE_WIRE_HANDLE).wrapping_add(number) % (1 << 32)) as u32
}

/// The text without the zeros at its beginning.
#[inline(never)]
fn without_first_zeros(text: &[u8]) -> &[u8]
    ensures { result.now ≡ without_zeros text.now }
{
    let mut rest = text;
    'zeros: while let [b'0', after @ ..] = rest {
        rest = after;
    }
    rest
}
