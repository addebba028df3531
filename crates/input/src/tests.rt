// Reads that fail in the middle of an input, and inputs that are longer than the buffer.
use super::{Unread, read_all};
use std::io;
use std::io::Read;

// A reader that gives two bytes at a time, and fails so many times before the last two.
#[derive(Drop)]
struct Halting<'a> {
    text: &'a [u8],
    failures: u32,
}

impl<'a> Read for Halting<'a> {
    fn read(&mut self, buf: &mut [u8]) -> io::Result<usize> {
        if self.text.len() <= 2 && self.failures > 0 {
            self.failures -= 1;
            return Err(io::Error::from(io::ErrorKind::WouldBlock));
        }
        let room = buf.len().min(2);
        self.text.read(&mut buf[..room])
    }
}

// How many bytes were read; 99 where the input is unread.
fn count(r: Result<usize, Unread>) -> usize {
    r.unwrap_or(99)
}

#[test]
fn failed_reads_are_no_end(rt: HostRuntime) {
    for (failures, want) in [(0, 6), (1, 6), (16, 6), (17, 99)] {
        let mut reader = Halting {
            text: b"abcdef",
            failures,
        };
        let mut buffer = [b'.'; 8];
        let n = count(read_all(&mut reader, &mut buffer));
        assert_eq!(rt; n, want, "with {failures} failures");
        if n == 6 {
            assert_eq!(rt; buffer, *b"abcdef..", "with {failures} failures");
        }
    }
}

#[test]
fn a_full_buffer_ends_reading(rt: HostRuntime) {
    let mut reader: &[u8] = b"abcdef";
    let mut buffer = [0u8; 4];
    assert_eq!(rt; count(read_all(&mut reader, &mut buffer)), 4);
    assert_eq!(rt; buffer, *b"abcd");
    assert_eq!(rt; count(read_all(&mut reader, &mut buffer)), 2);
    assert_eq!(rt; count(read_all(&mut reader, &mut buffer)), 0);
}
