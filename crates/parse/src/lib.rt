// From the text of a script to scratch words: a recursive descent that follows the grammar shape by shape.
#![tactic(auto)]

ghost use Rattle.parse.specs.TextLaws.{Parses};

mod forms;
mod lines;

pub use lexemes::source::Source;

// How many words and lines a script has.
#[derive(Clone, Copy)]
pub struct Parsed {
    pub words: usize,
    pub lines: usize,
}

// A text with its dictionary into scratch words; none where it is the text of no script.
pub fn parse(s: &Source, out: &mut [u64; 4096]) -> Option<Parsed>
    ensures { Parses s.now.text.now out.new result }
{
    lines::lines(s, out)
}
