// The words of a table, from a script in its scratch form and its dictionary.
ghost use Rattle.std.specs.Prelude.{◌≡◌, ◌+◌, ◌*◌, ◌/◌, ◌%◌, ◌≤◌, ◌<◌, length};
ghost use Rattle.layout.specs.Numbers.{lines_size, table_words};
ghost use Rattle.words.specs.Wide.{wide_kinds};
ghost use Rattle.checks.specs.Narrow.{table_word, narrow as narrowed};
ghost use Rattle.checks.specs.TableRegions.{Written};
ghost use Rattle.checks.specs.TableWriteLaws.{Placed, MethodWord, Cleared, LinesPut, WordPut, WordsPut};

use layout::{LINES, TABLE, kind};
use words::wide;

// The layout's numbers, as wide as the words of the scratch form.
const PAYLOAD: u64 = layout::PAYLOAD as u64;

const METHOD_UNIT: u64 = layout::METHOD_UNIT as u64;

const METHOD_HEADER: u64 = 3 * METHOD_UNIT;

const NAME_LIMIT: u64 = layout::NAME_LIMIT as u64;

const NO_NAME: u64 = layout::NO_NAME as u64;

const TAGGED_LIMIT: u64 = layout::TAGGED_LIMIT as u64;

// The table's word of kind `k` and payload `p`.
#[tactic(auto, using(crate::specs::TableWriteLaws::laws))]
fn table_word(k: u64, p: u64) -> u32
    requires { k < wide_kinds }
    ensures { result ≡ table_word k p }
{
    (p % PAYLOAD + PAYLOAD * k) as u32
}

// A parameter's place: an empty one, 0 here, is 127 in a table.
#[tactic(auto, using(crate::specs::TableWriteLaws::laws))]
fn placed(x: u64) -> u64
    ensures { Placed x result }
{
    if x == 0 { NO_NAME } else { x }
}

// A method's header.
#[tactic(auto, using(crate::specs::TableWriteLaws::laws))]
fn method_word(p: u64) -> u32
    ensures { MethodWord p result }
{
    let x = placed(p / wide::PARAMS % wide::LIMIT);
    let y = placed(p / wide::PARAMS / wide::LIMIT % wide::LIMIT);
    let z = placed(p / wide::PARAMS / wide::THIRD % wide::LIMIT);
    let w = p % wide::LIMIT
        + NAME_LIMIT * (p / wide::LIMIT % 4 + 4 * (x + NAME_LIMIT * (y + NAME_LIMIT * z)));
    (w % METHOD_UNIT + METHOD_HEADER) as u32
}

// A wide word as a table's.
#[tactic(auto, using(crate::specs::TableWriteLaws::laws))]
fn narrow(h: u64) -> u32
    ensures { result ≡ narrowed h }
{
    let k = h % wide::KINDS;
    let p = h / wide::KINDS;
    match k as u32 {
        kind::FUTURE => table_word(
            k,
            p % wide::LIMIT + NAME_LIMIT * (p / wide::LIMIT % wide::LIMIT),
        ),
        kind::CALL | kind::SEND | kind::ASK => table_word(
            k,
            p % wide::LIMIT + TAGGED_LIMIT * (p / wide::LIMIT % wide::LIMIT),
        ),
        kind::METHOD => method_word(p),
        _ => table_word(k, p),
    }
}

// Writes zeros from `from` to `to`.
fn clear(table: &mut [u32], from: usize, to: usize)
    requires { (from ≤ to) × (to ≤ length table.old) }
    ensures { Cleared table.old from to table.new }
{
    table[from..to].fill(0);
}

// Writes the lines' words behind the head.
#[tactic(auto, using(crate::specs::TableWriteLaws::line_laws))]
fn put_lines(table: &mut [u32], s: &[u64; 4096], words: usize)
    requires { (table_words ≤ length table.old) × (words ≤ lines_size) }
    ensures { LinesPut table.old s.now words table.new }
{
    for i in 0..words {
        table[LINES + i] = narrow(s[i]);
    }
}

// Writes a word of the dictionary, whose bytes are a number of 96 bits: the lower 64 are `low`, the others `high`.
#[tactic(auto, using(crate::specs::TableWriteLaws::laws))]
fn put_word(table: &mut [u32], at: usize, low: u64, high: u32)
    requires { (at + 2 < length table.old) × (at ≤ 4096) }
    ensures { WordPut table.old at low high table.new }
{
    table[at] = (low % 4294967296) as u32;
    table[at + 1] = (low / 4294967296) as u32;
    table[at + 2] = high;
}

// Writes the dictionary.
#[tactic(auto, using(crate::specs::TableWriteLaws::laws))]
fn put_words(table: &mut [u32], low: &[u64; 2048], high: &[u32; 2048], count: usize)
    requires { (table_words ≤ length table.old) × (count ≤ 64) }
    ensures { WordsPut table.old low.now high.now count table.new }
{
    for k in 0..count {
        put_word(table, 3 * k + 3, low[k], high[k]);
    }
}

// Writes the table of the lines in the first `words` words of `s`, whose dictionary has `count` words.
#[tactic(auto, using(crate::specs::TableRegions::laws))]
pub fn write_table(
    s: &[u64; 4096],
    words: usize,
    lines: usize,
    low: &[u64; 2048],
    high: &[u32; 2048],
    count: usize,
    table: &mut [u32],
)
    requires { (table_words ≤ length table.old) × (count ≤ 64) × (words ≤ lines_size) × (lines ≤ 4096) }
    ensures { Written s.now words lines low.now high.now count table.old table.new }
{
    table[0] = count as u32;
    table[1] = lines as u32;
    table[2] = words as u32;
    put_words(table, low, high, count);
    clear(table, 3 * count + 3, LINES);
    put_lines(table, s, words);
    clear(table, LINES + words, TABLE);
}
