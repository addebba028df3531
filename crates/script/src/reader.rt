// Reading a text into its table.
ghost use Rattle.std.specs.Prelude.{◌≡◌, ◌+◌, if◌then◌else◌};
ghost use Rattle.atlite.specs.Answers.{read_answer};
ghost use Rattle.promises.specs.Meaning.{read_call};
ghost use Rattle.script.specs.ReadContract.{Reads};
ghost use Rattle.script.specs.ReaderCauses.{Sized, Grammar, Scoped, Sound};

use crate::TEXT;
use atlite::Cause;
use layout::TABLE;
use parse::{Parsed, Source};
use scan::Vocabulary;

// How many different words the text has.
fn different(known: &Vocabulary) -> usize
    ensures { result ≡ known.now.count + (if known.now.apply then 1 else 0) }
{
    known.count + usize::from(known.apply)
}

// Causes 5: brackets, words, nodes. The table is written where none of them is found.
fn limits(
    text: &[u8],
    s: &[u64; 4096],
    p: Parsed,
    known: &Vocabulary,
    table: &mut [u32],
) -> Result<(), Cause>
    requires { Sound text.now table.old s.now known.now.low known.now.high p.words p.lines known.now.count known.now.apply }
    ensures { Reads text.now table.old result table.new }
{
    if 32 < checks::depth::depth(text) {
        return Err(Cause::Oversized);
    }
    if 64 < different(known) {
        return Err(Cause::Oversized);
    }
    if 512 < checks::size::size(s, p.words, p.lines) {
        return Err(Cause::Oversized);
    }
    checks::table::write_table(
        s,
        p.words,
        p.lines,
        &known.low,
        &known.high,
        known.count,
        table,
    );
    Ok(())
}

// Cause 4, and what comes after it.
fn lists(
    text: &[u8],
    s: &[u64; 4096],
    p: Parsed,
    known: &Vocabulary,
    table: &mut [u32],
) -> Result<(), Cause>
    requires { Scoped text.now table.old s.now known.now.low known.now.high p.words p.lines known.now.count known.now.apply }
    ensures { Reads text.now table.old result table.new }
{
    if !checks::single::single(s, p.words, p.lines) {
        return Err(Cause::Repeated);
    }
    limits(text, s, p, known, table)
}

// Cause 3, and what comes after it.
fn scopes(
    text: &[u8],
    s: &[u64; 4096],
    p: Parsed,
    known: &Vocabulary,
    table: &mut [u32],
) -> Result<(), Cause>
    requires { Grammar text.now table.old s.now known.now.low known.now.high p.words p.lines known.now.count known.now.apply }
    ensures { Reads text.now table.old result table.new }
{
    let mut last = [0u16; 4096];
    if !checks::bound::bound(s, p.words, p.lines, &mut last) {
        return Err(Cause::Unbound);
    }
    lists(text, s, p, known, table)
}

// The grammar, and what comes after it.
#[tactic(auto, using(crate::specs::ParserAnswer::laws))]
fn grammar(text: &[u8], table: &mut [u32]) -> Result<(), Cause>
    requires { Sized text.now table.old }
    ensures { Reads text.now table.old result table.new }
{
    let mut known = Vocabulary::new();
    scan::scan(text, &mut known);
    let mut s = [0u64; 4096];
    let words = known.words();
    let source = Source { text, words };
    let Some(p) = parse::parse(&source, &mut s) else {
        return Err(Cause::Grammar);
    };
    scopes(text, &s, p, &known, table)
}

// Lengths, and what comes after them.
#[tactic(auto, using(crate::specs::ParserAnswer::laws))]
pub fn read_text(text: &[u8], table: &mut [u32]) -> Result<(), Cause>
    ensures { Reads text.now table.old result table.new }
{
    if table.len() < TABLE {
        return Err(Cause::ShortBuffer);
    }
    if text.is_empty() {
        return Err(Cause::TextLength);
    }
    if TEXT < text.len() {
        return Err(Cause::TextLength);
    }
    grammar(text, table)
}

// Reads a script's text into the first 1,280 words of `table`.
//
// The answer and every word of `table` afterwards are `read_call`'s, for any bytes: 6 where the table's buffer is short, then the causes 1
// to 5, the lowest that applies anywhere in the text, and the table is left alone then. So it is ruled out that a refused text has
// written a word, and that a fault that stands early in the text hides one with a lower number behind it.
#[tactic(auto, unfolding(crate::specs::ReadContract::Reads))]
pub fn read(text: &[u8], table: &mut [u32]) -> Result<(), Cause>
    ensures { (read_answer result ≡ (read_call text.now table.old).result) × (table.new ≡ (read_call text.now table.old).buffer) }
{
    read_text(text, table)
}
