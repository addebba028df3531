// Refusals that are told by a byte, also by one that is no cause's number.
use super::{listed, loaded, moved, printed, ran, tabled};

const BYTES: [u8; 4] = [0, 16, 17, 255];

#[test]
fn a_byte_is_told_as_it_is(rt: HostRuntime) {
    for b in BYTES {
        let told = u32::from(b);
        let mut n = 7;
        let mut m = 8;
        let mut kind = 9;
        let mut other = 10;
        assert_eq!(rt; tabled(Err(b)), told);
        assert_eq!(rt; loaded(Err(b)), told);
        assert_eq!(rt; printed(Err(b), &mut n), told);
        assert_eq!(rt; listed(Err(b), &mut n), told);
        assert_eq!(rt; moved(Err(b), &mut kind, &mut other), told);
        assert_eq!(rt; ran(Err(b), &mut n, &mut m), told);
        assert_eq!(rt; (n, m, kind, other), (7, 8, 9, 10));
    }
}
