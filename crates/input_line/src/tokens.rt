// A line of calls: tokens of digits, with one space between two.
ghost use Rattle.std.specs.Prelude.{◌≡◌, ◌≤◌, length};
ghost use Rattle.atlite.specs.Replay.{tokens, calls};
ghost use Rattle.input_line.specs.Limits.{longest};
ghost use Rattle.input_line.specs.Entries.{EntriesOf};

// Puts the actor numbers of a line of calls in front of `entries`: so many, or none where the line has no meaning.
pub fn read_calls(line: &[u8], entries: &mut [u8]) -> Option<usize>
    requires { (length line.now ≤ longest) × (length entries.old ≡ longest) }
    ensures { EntriesOf (calls (tokens line.now)) entries.new result }
{
    let mut n = 0;
    // Whether a space may come, or the end: behind a digit, and where there is nothing.
    let mut complete = line.is_empty();
    for b in line {
        if *b == b' ' && complete {
            complete = false;
        } else {
            entries[n] = crate::digits::digit(*b, b'9')?;
            n += 1;
            complete = true;
        }
    }
    if complete { Some(n) } else { None }
}
