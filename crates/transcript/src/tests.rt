// Refusals that are told by a byte, also by one that is no cause's number.
use super::{LISTING, put_answer, refuse};
use showing::Writer;

#[test]
fn a_byte_is_written_as_it_is(rt: HostRuntime) {
    let mut out = [b'.'; LISTING];
    let n = refuse(200u8, &mut out);
    assert!(rt; out.starts_with(b"(refused 200)\n") && n == 14);
    let mut text = Writer::new(&mut out);
    put_answer(Err(255u8), &mut text);
    let k = text.len();
    assert!(rt; out.starts_with(b"255") && k == 3);
}
