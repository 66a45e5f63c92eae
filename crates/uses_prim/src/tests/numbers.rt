//! Numbers of two, four and eight bytes.

use jser_prim::{read_u16, read_u32, read_u64};

#[test]
fn read_numbers(rt: HostRuntime) {
    same!(rt; read_u16(&[0x01, 0x04]), 260);
    same!(rt; read_u32(&[0x00, 0x7E, 0x00, 0x01]), 0x7E_0001);
    same!(rt; read_u64(&[0xFF; 8]), u64::MAX);
    same!(rt; read_u64(&[1, 2, 3, 4, 5, 6, 7, 8]), 0x0102_0304_0506_0708);
}
