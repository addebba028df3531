// Scratch words: how they are made of kinds, names and counts, and how one is put in its place.
ghost use Rattle.std.specs.Prelude.{◌≡◌, ◌+◌, ◌*◌, ◌≤◌, ◌<◌, length, set};
ghost use Rattle.atlite.specs.Term.{top};
ghost use Rattle.layout.specs.Numbers.{digit_limit};
ghost use Rattle.words.specs.Wide.{wide, wide_limit, pair, wide_names};
ghost use Rattle.lexemes.specs.DescentContract.{Closed, stepped};

use crate::source::Source;
use words::wide;

// The numbers of the scratch form that positions and counts are put together with.
pub const LIMIT: usize = wide::LIMIT as usize;

const DIGIT: usize = wide::DIGIT as usize;

// Where reading goes on in the text, and writing in the words.
#[derive(Clone, Copy)]
pub struct Step {
    pub at: usize,
    pub out: usize,
}

// The same behind a list, and the list's count.
#[derive(Clone, Copy)]
pub struct Listed {
    pub at: usize,
    pub out: usize,
    pub count: usize,
}

// Stores `w` at `o`, behind which the words go on at `p`.
pub fn put(out: &mut [u64], o: usize, w: u64, i: usize, p: usize) -> Option<Step>
    requires { o < length out.old }
    ensures { (result ≡ stepped i p) × (out.new ≡ set out.old o w) }
{
    out[o] = w;
    Some(Step { at: i, out: p })
}

// The closing bracket of a form whose head word `w` has its place at `o`.
#[tactic(auto, using(crate::specs::DescentLaws::closing))]
pub fn close(
    s: &Source,
    at: usize,
    out: &mut [u64; 4096],
    o: usize,
    w: u64,
    p: usize,
) -> Option<Step>
    requires { (at ≤ length s.now.text.now) × (o < 4096) }
    ensures { Closed s.now.text.now at out.old o w p out.new result }
{
    if scan::starts(s.text, at, b")") {
        return put(out, o, w, at + 1, p);
    }
    None
}

// Head words: a kind with one name, with two numbers.
pub fn head(k: u8, x: usize) -> u64
    requires { x < wide_limit }
    ensures { result ≡ wide k x }
{
    u64::from(k) + wide::KINDS * (x as u64)
}

pub fn head2(k: u8, x: usize, y: usize) -> u64
    requires { (x < wide_limit) × (y < wide_limit) }
    ensures { result ≡ wide k (pair x y) }
{
    u64::from(k) + wide::KINDS * ((x + LIMIT * y) as u64)
}

pub fn number_word(n: usize) -> u64
    requires { n ≤ top }
    ensures { result ≡ wide 2 n }
{
    2 + wide::KINDS * (n as u64)
}

pub fn method_word(m: usize, c: usize, q: usize) -> u64
    requires { (m < wide_limit) × (c ≤ 3) × (q < wide_names) }
    ensures { result ≡ wide 192 (pair m (c + 4 * q)) }
{
    192 + wide::KINDS * ((m + LIMIT * (c + 4 * q)) as u64)
}

pub fn literal_head(k: u8, c: usize, d: usize) -> u64
    requires { (c ≤ 4) × (d ≤ 4) }
    ensures { result ≡ wide k (c + digit_limit * d) }
{
    u64::from(k) + wide::KINDS * ((c + DIGIT * d) as u64)
}
