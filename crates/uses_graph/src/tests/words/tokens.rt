//! Tokens at the edges of what they are wanted for, in streams made for them.

use super::assert_said;
use jser_printer::{OwnerNode, Token};
use std::test::Fail;

#[test]
fn notes_and_blocks(rt: HostRuntime) -> Result<(), Fail> {
    let owners = [OwnerNode {
        number: 1,
        elements: 0,
    }];
    let tokens = [
        Token::Header,
        Token::Tag(0x77),
        Token::BlockLength(0),
        Token::Tag(0x73),
        Token::Tag(0x72),
        Token::Text(&[0x41]),
        Token::Suid(1),
        Token::Flags(3),
        Token::FieldCount(0),
        Token::Tag(0x78),
        Token::Tag(0x70),
        Token::Tag(0x7A),
        Token::BlockLength(4),
        Token::Raw(&[0, 0, 0, 1]),
        Token::Tag(0x7C),
        Token::Text(&[0x61]),
        Token::Tag(0x78),
    ];
    let want = b"stream version 5
block 0:
object #0.7e0001
  class desc #0.7e0000 \"A\" suid 0000000000000001 flags 03
    super null
  data \"A\"
    note longblock 4: 00000001
    note longtext #0.7e0002 \"a\"
";
    assert_said(&rt, &owners, &tokens, want)
}

#[test]
fn proxies_and_enum_constants(rt: HostRuntime) -> Result<(), Fail> {
    let owners = [OwnerNode {
        number: 1,
        elements: 0,
    }];
    let tokens = [
        Token::Header,
        Token::Tag(0x7E),
        Token::Tag(0x7D),
        Token::InterfaceCount(1),
        Token::Text(&[0x49]),
        Token::Tag(0x78),
        Token::Tag(0x70),
        Token::Tag(0x71),
        Token::Handle(0x7E0005),
    ];
    let want = b"stream version 5
enum #0.7e0001
  class proxy #0.7e0000
    interface \"I\"
    super null
  name ref #0.7e0005
";
    assert_said(&rt, &owners, &tokens, want)
}

/// An owner with this number and so many elements.
fn owner(number: u32, elements: u32) -> OwnerNode {
    OwnerNode { number, elements }
}

/// The last of two elements, inside two arrays.
#[test]
fn class_object_in_arrays(rt: HostRuntime) -> Result<(), Fail> {
    let owners = [owner(1, 1), owner(2, 1), owner(3, 2), owner(4, 0)];
    let tokens = [
        Token::Header,
        Token::Tag(0x75),
        Token::Tag(0x72),
        Token::Text(&[0x5B, 0x4C, 0x41, 0x3B]),
        Token::Suid(1),
        Token::Flags(2),
        Token::FieldCount(0),
        Token::Tag(0x78),
        Token::Tag(0x70),
        Token::ArrayLength(1),
        Token::Tag(0x75),
        Token::Tag(0x71),
        Token::Handle(0x7E0000),
        Token::ArrayLength(1),
        Token::Tag(0x75),
        Token::Tag(0x71),
        Token::Handle(0x7E0000),
        Token::ArrayLength(2),
        Token::Tag(0x70),
        Token::Tag(0x76),
        Token::Tag(0x71),
        Token::Handle(0x7E0000),
    ];
    let want = b"stream version 5
array #0.7e0001 length 1
  class desc #0.7e0000 \"[LA;\" suid 0000000000000001 flags 02
    super null
  [0] array #0.7e0002 length 1
    class ref #0.7e0000
    [0] array #0.7e0003 length 2
      class ref #0.7e0000
      [0] null
      [1] classobject #0.7e0004
        class ref #0.7e0000
";
    assert_said(&rt, &owners, &tokens, want)
}

/// The least handle, and the greatest ones, in the epochs that streams here may have.
#[test]
fn marks(rt: HostRuntime) -> Result<(), Fail> {
    let tokens = [
        Token::Header,
        Token::Tag(0x71),
        Token::Handle(0x7E0000),
        Token::Tag(0x79),
        Token::Tag(0x71),
        Token::Handle(0xFF_FFFF),
        Token::Tag(0x71),
        Token::Handle(0xFFFF_FFFF),
    ];
    let want = b"stream version 5
ref #0.7e0000
reset
ref #1.ffffff
ref #1.ffffffff
";
    assert_said(&rt, &[], &tokens, want)
}

/// Raw elements up to an index of two digits, and an array with none.
#[test]
fn raw_elements(rt: HostRuntime) -> Result<(), Fail> {
    let tokens = [
        Token::Header,
        Token::Tag(0x75),
        Token::Tag(0x72),
        Token::Text(&[0x5B, 0x53]),
        Token::Suid(1),
        Token::Flags(2),
        Token::FieldCount(0),
        Token::Tag(0x78),
        Token::Tag(0x70),
        Token::ArrayLength(11),
        Token::Raw(&[
            0, 0, 0, 0, 0, 0, 0, 0, 0, 0, 0, 0, 0, 0, 0, 0, 0, 0, 0, 1, 0xFF, 0xFE,
        ]),
        Token::Tag(0x75),
        Token::Tag(0x71),
        Token::Handle(0x7E0000),
        Token::ArrayLength(0),
    ];
    let want = b"stream version 5
array #0.7e0001 length 11
  class desc #0.7e0000 \"[S\" suid 0000000000000001 flags 02
    super null
  [0] 0000
  [1] 0000
  [2] 0000
  [3] 0000
  [4] 0000
  [5] 0000
  [6] 0000
  [7] 0000
  [8] 0000
  [9] 0001
  [10] fffe
array #0.7e0002 length 0
  class ref #0.7e0000
";
    assert_said(&rt, &[owner(1, 11), owner(2, 0)], &tokens, want)
}
