//! Worked streams, from their tokens alone: a walk knows what each is for.

use super::assert_said;
use jser_printer::{OwnerNode, Token};
use std::test::Fail;

/// `List`
const LIST: [u16; 4] = [0x4C, 0x69, 0x73, 0x74];
/// `value`
const VALUE: [u16; 5] = [0x76, 0x61, 0x6C, 0x75, 0x65];
/// `next`
const NEXT: [u16; 4] = [0x6E, 0x65, 0x78, 0x74];
/// `LList;`
const LIST_TYPE: [u16; 6] = [0x4C, 0x4C, 0x69, 0x73, 0x74, 0x3B];
/// `java.util.ArrayList`
const ARRAY_LIST: [u16; 19] = [
    0x6A, 0x61, 0x76, 0x61, 0x2E, 0x75, 0x74, 0x69, 0x6C, 0x2E, 0x41, 0x72, 0x72, 0x61, 0x79, 0x4C,
    0x69, 0x73, 0x74,
];
/// `size`
const SIZE: [u16; 4] = [0x73, 0x69, 0x7A, 0x65];

#[test]
fn linked_pair(rt: HostRuntime) -> Result<(), Fail> {
    let owners = [
        OwnerNode {
            number: 2,
            elements: 0,
        },
        OwnerNode {
            number: 3,
            elements: 0,
        },
    ];
    let tokens = [
        Token::Header,
        Token::Tag(0x73),
        Token::Tag(0x72),
        Token::Text(&LIST),
        Token::Suid(0x69c8_8a15_4016_ae68),
        Token::Flags(2),
        Token::FieldCount(2),
        Token::TypeCode(b'I'),
        Token::Text(&VALUE),
        Token::TypeCode(b'L'),
        Token::Text(&NEXT),
        Token::Tag(0x74),
        Token::Text(&LIST_TYPE),
        Token::Tag(0x78),
        Token::Tag(0x70),
        Token::Raw(&[0, 0, 0, 0x11]),
        Token::Tag(0x73),
        Token::Tag(0x71),
        Token::Handle(0x7E0000),
        Token::Raw(&[0, 0, 0, 0x13]),
        Token::Tag(0x70),
        Token::Tag(0x71),
        Token::Handle(0x7E0003),
    ];
    let want = b"stream version 5
object #0.7e0002
  class desc #0.7e0000 \"List\" suid 69c88a154016ae68 flags 02
    field I \"value\"
    field L \"next\" type text #0.7e0001 \"LList;\"
    super null
  data \"List\"
    \"value\" = 00000011
    \"next\" = object #0.7e0003
      class ref #0.7e0000
      data \"List\"
        \"value\" = 00000013
        \"next\" = null
ref #0.7e0003
";
    assert_said(&rt, &owners, &tokens, want)
}

#[test]
fn array_list(rt: HostRuntime) -> Result<(), Fail> {
    let owners = [OwnerNode {
        number: 1,
        elements: 0,
    }];
    let tokens = [
        Token::Header,
        Token::Tag(0x73),
        Token::Tag(0x72),
        Token::Text(&ARRAY_LIST),
        Token::Suid(0x7881_d21d_99c7_619d),
        Token::Flags(3),
        Token::FieldCount(1),
        Token::TypeCode(b'I'),
        Token::Text(&SIZE),
        Token::Tag(0x78),
        Token::Tag(0x70),
        Token::Raw(&[0, 0, 0, 1]),
        Token::Tag(0x77),
        Token::BlockLength(4),
        Token::Raw(&[0, 0, 0, 1]),
        Token::Tag(0x74),
        Token::Text(&[0x61]),
        Token::Tag(0x78),
    ];
    let want = b"stream version 5
object #0.7e0001
  class desc #0.7e0000 \"java.util.ArrayList\" suid 7881d21d99c7619d flags 03
    field I \"size\"
    super null
  data \"java.util.ArrayList\"
    \"size\" = 00000001
    note block 4: 00000001
    note text #0.7e0002 \"a\"
";
    assert_said(&rt, &owners, &tokens, want)
}

#[test]
fn int_array(rt: HostRuntime) -> Result<(), Fail> {
    let owners = [OwnerNode {
        number: 1,
        elements: 2,
    }];
    let tokens = [
        Token::Header,
        Token::Tag(0x75),
        Token::Tag(0x72),
        Token::Text(&[0x5B, 0x49]),
        Token::Suid(0x4dba_6026_76ea_b2a5),
        Token::Flags(2),
        Token::FieldCount(0),
        Token::Tag(0x78),
        Token::Tag(0x70),
        Token::ArrayLength(2),
        Token::Raw(&[0, 0, 0, 1, 0xFF, 0xFF, 0xFF, 0xFF]),
    ];
    let want = b"stream version 5
array #0.7e0001 length 2
  class desc #0.7e0000 \"[I\" suid 4dba602676eab2a5 flags 02
    super null
  [0] 00000001
  [1] ffffffff
";
    assert_said(&rt, &owners, &tokens, want)
}

#[test]
fn reset_epochs(rt: HostRuntime) -> Result<(), Fail> {
    let tokens = [
        Token::Header,
        Token::Tag(0x74),
        Token::Text(&[0x61]),
        Token::Tag(0x79),
        Token::Tag(0x74),
        Token::Text(&[0x62]),
        Token::Tag(0x71),
        Token::Handle(0x7E0000),
    ];
    let want = b"stream version 5
text #0.7e0000 \"a\"
reset
text #1.7e0000 \"b\"
ref #1.7e0000
";
    assert_said(&rt, &[], &tokens, want)
}
