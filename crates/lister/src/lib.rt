// The listing of a state from its words. The same code measures the listing, into no text, and writes it. Words that are no
// state are listed as some text too, so that nothing here fails.
#![tactic(auto)]

mod messages;

ghost use Rattle.std.specs.Prelude.{◌+◌, ◌*◌, ◌≤◌, ◌<◌, length, drop};
ghost use Rattle.layout.specs.Numbers.{slot_size, part_size, state_words};
ghost use Rattle.showing.specs.Put.{Put};
ghost use Rattle.lister.specs.TextOfState.{fields_in, kind_in, state_in, opening_in, parts_in, slot_in, slots_in, spaced_in, line_in, actor_in, listed_in};
ghost use Rattle.lister.specs.ListContract.{Lists};
ghost use Rattle.lister.specs.SlotContract.{Slotted};

use layout::{
    BODIES, BODIES_SIZE, COPIED, COPIED_COUNT, DIGIT, DIGITS, EXPR, HEAD, HEADER, INBOX,
    INBOX_COUNT, MADE, MADE_COUNT, NAME_LIMIT, NO_NAME, PART, PAYLOAD, SLOT, SLOT_UNIT, STATE,
    WAITING, entity,
};
use showing::Writer;

// The counts of actors, of entities made, of those copied and of messages are below these, which are more than a state can have: counts are
// cut there, so that words that are no state stay in range.
const ACTORS: u32 = 5;

const MADE_LIMIT: u32 = 64;

const COPIED_LIMIT: u32 = 32;

const INBOX_LIMIT: u32 = 32;

// Where to read methods and waiting messages.
#[derive(Clone, Copy)]
struct Spot {
    body: usize,
    wait: usize,
}

// The `n` fields with names in `x` and values at `at`, each behind a space.
fn show_fields(t: &[u32], n: u32, x: u32, at: usize, text: &mut Writer<'_>)
    ensures { Put text.old (fields_in t.now n x (drop at t.now)) text.new }
{
    let mut names = x;
    let mut next = at;
    for _ in 0..n {
        text.put(b' ');
        next = text.show_form(t, HEADER + names % NAME_LIMIT, next, 1);
        names /= NAME_LIMIT;
    }
}

// A bracket and the kind of an entity.
fn put_kind(k: u32, text: &mut Writer<'_>)
    ensures { Put text.old (kind_in k) text.new }
{
    match k {
        entity::OBJECT => text.put_bytes(b"(object "),
        entity::ISOLATE => text.put_bytes(b"(isolate "),
        entity::RESOLVER => text.put_bytes(b"(resolver "),
        _ => text.put_bytes(b"(future "),
    }
}

// What a future or a resolver of kind `k` has behind its number.
fn put_state(t: &[u32], k: u32, v: u32, text: &mut Writer<'_>)
    ensures { Put text.old (state_in t.now k v) text.new }
{
    match k {
        entity::OPEN => text.put_bytes(b" open"),
        entity::RESOLVED => {
            text.put(b' ');
            text.put_leaf(t, v);
        }
        entity::RESOLVER => put_spaced(v % PAYLOAD, text),
        _ => {}
    }
}

// The opening of the slot of head `h`, with `v` in its first place, in the series `s` of the actor `a`.
fn put_opening(t: &[u32], a: u8, s: u32, h: u32, v: u32, text: &mut Writer<'_>)
    ensures { Put text.old (opening_in t.now a s h v) text.new }
{
    put_kind(h % DIGIT, text);
    text.put_number(u32::from(a));
    text.put_series(s);
    text.put_number(h / SLOT_UNIT);
    put_state(t, h % DIGIT, v, text);
}

// What follows the opening of the slot of head `h`: fields with names in `x` and values at `at`, methods, messages, the end.
fn show_parts(t: &[u32], h: u32, x: u32, at: usize, spot: Spot, text: &mut Writer<'_>) -> Spot
    ensures { Slotted t.now (parts_in t.now h x (drop at t.now) (drop spot.body t.now) (drop spot.wait t.now)) text.old text.new result.body result.wait }
{
    let methods = (h / DIGITS % DIGIT) as usize;
    show_fields(t, h / DIGIT % DIGIT, x, at, text);
    let body = text.show_operands(t, spot.body, NO_NAME, methods, BODIES_SIZE);
    let wait = messages::show_waiting(t, spot.wait, h / SLOT_UNIT, text);
    text.put_bytes(b")\n");
    Spot { body, wait }
}

// The slot at `at`.
fn show_slot(t: &[u32], a: u8, s: u32, at: usize, spot: Spot, text: &mut Writer<'_>) -> Spot
    requires { at + slot_size ≤ length t.now }
    ensures { Slotted t.now (slot_in t.now a s (drop at t.now) (drop spot.body t.now) (drop spot.wait t.now)) text.old text.new result.body result.wait }
{
    put_opening(t, a, s, t[at], t[at + 2], text);
    show_parts(t, t[at], t[at + 1], at + 2, spot, text)
}

// The `n` slots at `at`.
fn show_slots(
    t: &[u32],
    a: u8,
    s: u32,
    n: usize,
    at: usize,
    spot: Spot,
    text: &mut Writer<'_>,
) -> Spot
    requires { at + slot_size * n ≤ length t.now }
    ensures { Slotted t.now (slots_in t.now a s n (drop at t.now) (drop spot.body t.now) (drop spot.wait t.now)) text.old text.new result.body result.wait }
{
    let mut next = spot;
    for i in 0..n {
        next = show_slot(t, a, s, at + SLOT * i, next, text);
    }
    next
}

// A number behind a space.
fn put_spaced(n: u32, text: &mut Writer<'_>)
    requires { n < 100000000 }
    ensures { Put text.old (spaced_in n) text.new }
{
    text.put(b' ');
    text.put_number(n);
}

// The line of the actor `a`, whose part begins at `at`: its number, its moves, the lengths of its two series, its expression.
fn show_line(t: &[u32], a: u8, at: usize, text: &mut Writer<'_>)
    requires { at + part_size ≤ length t.now }
    ensures { Put text.old (line_in t.now a (drop at t.now)) text.new }
{
    text.put_bytes(b"(actor");
    put_spaced(u32::from(a), text);
    put_spaced(t[at] % PAYLOAD, text);
    put_spaced(t[at + MADE_COUNT] % MADE_LIMIT, text);
    put_spaced(t[at + COPIED_COUNT] % COPIED_LIMIT, text);
    text.put(b' ');
    text.show(t, at + EXPR, BODIES_SIZE);
    text.put_bytes(b")\n");
}

// The line of the actor `a`, the entities of both series, and the inbox.
fn show_actor(t: &[u32], a: u8, at: usize, text: &mut Writer<'_>)
    requires { at + part_size ≤ length t.now }
    ensures { Put text.old (actor_in t.now a (drop at t.now)) text.new }
{
    let made = (t[at + MADE_COUNT] % MADE_LIMIT) as usize;
    let copied = (t[at + COPIED_COUNT] % COPIED_LIMIT) as usize;
    let messages = (t[at + INBOX_COUNT] % INBOX_LIMIT) as usize;
    let first = Spot {
        body: at + BODIES,
        wait: at + WAITING,
    };
    show_line(t, a, at, text);
    let next = show_slots(t, a, 0, made, at + MADE, first, text);
    show_slots(t, a, 1, copied, at + COPIED, next, text);
    messages::show_inbox(t, messages, at + INBOX, text);
}

// All actors of the words `t`.
fn list_all(t: &[u32], text: &mut Writer<'_>)
    requires { state_words ≤ length t.now }
    ensures { Put text.old (listed_in t.now) text.new }
{
    let n = (t[0] % ACTORS) as u8;
    for a in 0..n {
        show_actor(t, a, HEAD + PART * usize::from(a), text);
    }
}

// Lists the state whose words `state` begins with, as far as `out` has room, and returns the listing's length.
pub fn list_words(state: &[u32], out: &mut [u8]) -> usize
    requires { state_words ≤ length state.now }
    ensures { Lists state.now out.old out.new result }
{
    let mut text = Writer::new(out);
    list_all(&state[..STATE], &mut text);
    text.len()
}
