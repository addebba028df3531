// Printing a table as its text.
ghost use Rattle.std.specs.Prelude.{◌≡◌, ◌≤◌, length, take};
ghost use Rattle.atlite.specs.Base.{is_done};
ghost use Rattle.atlite.specs.Answers.{print_answer};
ghost use Rattle.layout.specs.Numbers.{table_words};
ghost use Rattle.promises.specs.Meaning.{table_in, print_call};
ghost use Rattle.script.specs.PrintContract.{Prints, Given, IsText, Front};

use crate::TEXT;
use atlite::Cause;
use layout::TABLE;

// Puts the text `front` in front of `text`, if it fits.
#[tactic(auto, unfolding(words::specs::Runs::Copied))]
fn give(front: &[u8], text: &mut [u8]) -> Result<usize, Cause>
    ensures { Given front.now text.old result text.new }
{
    let n = front.len();
    if text.len() < n {
        return Err(Cause::ShortBuffer);
    }
    words::copy_bytes(front, n, text);
    Ok(n)
}

// Whether `front` is the text of the table whose words `table` begins with: it is read, and the words are compared.
#[tactic(auto, using(crate::specs::Reprinting::laws))]
fn is_text(table: &[u32], front: &[u8]) -> bool
    requires { table_words ≤ length table.now }
    ensures { IsText table.now front.now result }
{
    let mut again = [0u32; TABLE];
    match crate::reader::read_text(front, &mut again) {
        Ok(()) => table[..TABLE] == again[..],
        Err(_) => false,
    }
}

// Cause 7, and what comes after it. The first `n` bytes of `out` are the text of the table, if there is one; what stands behind them is none of it.
#[tactic(auto, using(crate::specs::PrintContract::laws))]
fn print_made(table: &[u32], out: &[u8], n: usize, text: &mut [u8]) -> Result<usize, Cause>
    requires { (n ≤ length out.now) × Front table.now (take n out.now) }
    ensures { Prints table.now text.old result text.new }
{
    let front = &out[..n];
    if !is_text(table, front) {
        return Err(Cause::Malformed);
    }
    give(front, text)
}

// The table's length, and what comes after it. The text is made in an array of its own, since nothing may be written of a refused one.
#[tactic(auto, using(crate::specs::Reprinting::laws))]
fn print_table(table: &[u32], text: &mut [u8]) -> Result<usize, Cause>
    ensures { Prints table.now text.old result text.new }
{
    if table.len() < TABLE {
        return Err(Cause::ShortBuffer);
    }
    let mut out = [0u8; TEXT];
    match printer::print_words(table, &mut out) {
        Some(n) => print_made(table, &out, n, text),
        None => Err(Cause::Malformed),
    }
}

// Prints the table whose words `table` begins with into `text`.
//
// The answer and every byte of `text` afterwards are `print_call`'s, for any words: 6 where the table is short, 7 where the words are no
// table, 6 where the text has no room, and `text` is left alone then; else the length of the table's text, which stands in front. So it
// is ruled out that words which no script has are printed as if they were one, and that a byte past the text is written.
#[tactic(auto, unfolding(crate::specs::PrintContract::Prints))]
pub fn print(table: &[u32], text: &mut [u8]) -> Result<usize, Cause>
    ensures { (print_answer result ≡ (print_call table.now text.old).result) × (text.new ≡ (print_call table.now text.old).buffer) }
{
    print_table(table, text)
}

// Whether `table` begins with the 1,280 words of a table.
//
// It answers exactly what the definitions say, of any words, by whether they print: every text fits into 4,096 bytes. So it is ruled out
// that words which differ from the one layout of a script's table pass for it, and that a table with a text of full length is refused.
#[tactic(auto, using(crate::specs::TableTest::laws))]
pub fn is_table(table: &[u32]) -> bool
    ensures { result ≡ is_done (table_in table.now) }
{
    let mut text = [0u8; TEXT];
    print_table(table, &mut text).is_ok()
}
