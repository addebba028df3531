// The line that an input of the programs `loops` and `replay` begins with: where it ends, and what it says.
//
// A line is a schedule for the one program and calls for the other; read, either is actor numbers. Nothing here stands on the engine: a line
// is judged before any of the script behind it is looked at.
#![tactic(auto)]

ghost use Rattle.std.specs.Prelude.{◌≡◌, ◌==◌, ◌+◌, position, take};
ghost use Rattle.input_line.specs.Limits.{longest};
ghost use Rattle.input_line.specs.Lines.{LineOf};

mod digits;
mod tokens;

pub use digits::read_schedule;
pub use tokens::read_calls;

// No program looks at a longer line. A line has no more entries.
pub const LONGEST: usize = 4096;

// A script that has more bytes is refused, whatever they are.
const SCRIPT: usize = 4096;

// The bytes of an input that decide: one more than a line, its end and a script have.
pub const INPUT: usize = LONGEST + 1 + SCRIPT + 1;

// The first byte 10 among those that the longest line and its end have.
fn first_end(input: &[u8]) -> Option<usize>
    ensures { result ≡ position (λ b. b == 10) (take (longest + 1) input.now) }
{
    input.iter().take(LONGEST + 1).position(|b| *b == b'\n')
}

// Where the first line ends: in front of the byte 10 at this place, or nowhere that is looked at. Nothing is read behind the longest line.
#[tactic(auto, using(crate::specs::Lines::line_found))]
pub fn first_line(input: &[u8]) -> Option<usize>
    ensures { LineOf input.now result }
{
    first_end(input)
}
