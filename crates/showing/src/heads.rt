// What a word says of its form, and the text before its operands.
ghost use Rattle.std.specs.Prelude.{◌≡◌};
ghost use Rattle.showing.specs.Put.{Put};
ghost use Rattle.showing.specs.TextOfWords.{first, second, after, count, open_in, places_in, params_in, operator_in, head_in};

use crate::Writer;
use layout::{NAME_LIMIT, NO_NAME, PAYLOAD, SECOND_PLACE, TAGGED_LIMIT, THIRD_PLACE, kind};

// The most operands that a form has.
const OPERANDS: usize = 14;

// The kinds of headers, and of those the methods'.
const FIELD_KIND: u32 = 128;

const METHOD: u32 = 192;

// The name behind the operator of the word `h`, or the layout's number of no name, which a header's empty places hold too: so `put_name` tells
// it once, where an Option would be taken apart at each call.
fn first_name(h: u32) -> u32
    ensures { result ≡ first h }
{
    match h / PAYLOAD {
        11 | 12 | 65 | FIELD_KIND.. => h % NAME_LIMIT,
        _ => NO_NAME,
    }
}

// The second name behind the operator, which only a future has.
fn second_name(h: u32) -> u32
    ensures { result ≡ second h }
{
    match h / PAYLOAD {
        12 => h / NAME_LIMIT % NAME_LIMIT,
        _ => NO_NAME,
    }
}

// The name behind the first operand, with its tag.
pub fn name_after(h: u32) -> u32
    ensures { result ≡ after h }
{
    let k = h / PAYLOAD;
    if kinds::operator(k) == 2 {
        return h % NAME_LIMIT;
    }
    match k {
        kind::CALL => h % TAGGED_LIMIT,
        kind::SEND => h % TAGGED_LIMIT,
        kind::ASK => h % TAGGED_LIMIT,
        kind::WHEN => h % NAME_LIMIT,
        _ => NO_NAME,
    }
}

// How many operands of the word `h` are shown. No form has more than 14; words that are none may say any number.
pub fn operand_count(h: u32) -> usize
    ensures { result ≡ count h }
{
    kinds::arity(h).min(OPERANDS)
}

impl Writer<'_> {
    // The first of the names in brackets, behind a space and the bracket.
    fn put_open(&mut self, t: &[u32], x: u32)
        ensures { Put self.old (open_in t.now x) self.new }
    {
        self.put_bytes(b" (");
        self.put_word(t, x);
    }

    // Names in brackets, behind a space; an empty place has the number of no name.
    fn put_places(&mut self, t: &[u32], x: u32, y: u32, z: u32)
        ensures { Put self.old (places_in t.now x y z) self.new }
    {
        self.put_open(t, x);
        self.put_name(t, y);
        self.put_name(t, z);
        self.put(b')');
    }

    // A method's parameters.
    fn put_params(&mut self, t: &[u32], h: u32)
        ensures { Put self.old (params_in t.now h) self.new }
    {
        if METHOD <= h / PAYLOAD {
            let x = h / TAGGED_LIMIT % NAME_LIMIT;
            let y = h / SECOND_PLACE % NAME_LIMIT;
            let z = h / THIRD_PLACE % NAME_LIMIT;
            self.put_places(t, x, y, z);
        }
    }

    // A bracket and the operator of kind `k`. The kinds of a method's header begin with 192.
    fn put_operator(&mut self, k: u32)
        ensures { Put self.old (operator_in k) self.new }
    {
        self.put(b'(');
        self.put_keyword(k.min(METHOD));
    }

    // What stands before the operands of the word `h`.
    pub(crate) fn put_head(&mut self, t: &[u32], h: u32)
        ensures { Put self.old (head_in t.now h) self.new }
    {
        let first = first_name(h);
        let second = second_name(h);
        self.put_operator(h / PAYLOAD);
        self.put_name(t, first);
        self.put_name(t, second);
        self.put_params(t, h);
    }
}
