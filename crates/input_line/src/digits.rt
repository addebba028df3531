// A schedule line: a digit from 0 to 3 for each entry, and nothing else.
ghost use Rattle.std.specs.Prelude.{◌≡◌, ◌≤◌, length};
ghost use Rattle.atlite.specs.Loops.{schedule};
ghost use Rattle.input_line.specs.Limits.{longest};
ghost use Rattle.input_line.specs.Entries.{DigitOf, EntriesOf};

// The number of the digit `b`, if it is one up to `last`.
pub fn digit(b: u8, last: u8) -> Option<u8>
    ensures { DigitOf b last result }
{
    if b'0' <= b && b <= last {
        Some(b - b'0')
    } else {
        None
    }
}

// Puts the actor numbers of a schedule line in front of `entries`: so many, or none where the line has no meaning.
pub fn read_schedule(line: &[u8], entries: &mut [u8]) -> Option<usize>
    requires { (length line.now ≤ longest) × (length entries.old ≡ longest) }
    ensures { EntriesOf (schedule line.now) entries.new result }
{
    for (i, b) in line.iter().enumerate() {
        entries[i] = digit(*b, b'3')?;
    }
    Some(line.len())
}
