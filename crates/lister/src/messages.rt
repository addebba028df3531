// The listing of messages: those of an inbox, a line each, and those that wait for a future, in its line.
ghost use Rattle.std.specs.Prelude.{◌≡◌, true, ◌+◌, ◌*◌, ◌≤◌, ◌<◌, length, drop, get_or};
ghost use Rattle.layout.specs.Numbers.{message_size};
ghost use Rattle.showing.specs.Put.{Put};
ghost use Rattle.showing.specs.ShowContract.{Showed};
ghost use Rattle.lister.specs.TextOfState.{message_in, aim_in, waits, waiting_in, inbox_in};

use layout::{DIGIT, MESSAGE, NUMBER_LIMIT, PAYLOAD, REFERENCE, SEND, TAGGED_LIMIT};
use showing::Writer;

// The most messages that wait at an actor.
const QUEUE: usize = 16;

// The number in the reference at `at`, or zero.
fn aim(t: &[u32], at: usize) -> u32
    ensures { result ≡ aim_in (get_or t.now at 0) }
{
    if t.len() <= at {
        return 0;
    }
    if t[at] / PAYLOAD == REFERENCE / PAYLOAD {
        return t[at] % NUMBER_LIMIT;
    }
    0
}

// Whether a message to the entity `n` stands at `at`.
fn waits(t: &[u32], at: usize, n: u32) -> bool
    ensures is { result ≡ waits n (drop at t.now) }
    ensures within { result ≡ true → at < length t.now }
{
    if t.len() <= at {
        return false;
    }
    if t[at] / PAYLOAD != SEND / PAYLOAD {
        return false;
    }
    aim(t, at + 1) == n
}

// The message at `at`.
fn show_message(t: &[u32], at: usize, text: &mut Writer<'_>)
    requires { at < length t.now }
    ensures { Put text.old (message_in t.now (drop at t.now)) text.new }
{
    let h = t[at];
    let operands = (1 + h / TAGGED_LIMIT % DIGIT) as usize;
    text.put_bytes(b"(message");
    text.show_operands(t, at + 1, h % TAGGED_LIMIT, operands, 1);
    text.put(b')');
}

// The messages at `at` to the entity `n`, each behind a space. Behind the last one stand zeros or a slot, whose words have another
// kind, so no count is needed. Returns where reading goes on.
pub fn show_waiting(t: &[u32], at: usize, n: u32, text: &mut Writer<'_>) -> usize
    ensures { Showed t.now (waiting_in t.now 16 n (drop at t.now)) text.old text.new result }
{
    let mut next = at;
    for _ in 0..QUEUE {
        if !waits(t, next, n) {
            return next;
        }
        text.put(b' ');
        show_message(t, next, text);
        next += MESSAGE;
    }
    next
}

// The `n` messages of an inbox, each a line.
pub fn show_inbox(t: &[u32], n: usize, at: usize, text: &mut Writer<'_>)
    requires { at + message_size * n ≤ length t.now }
    ensures { Put text.old (inbox_in t.now n (drop at t.now)) text.new }
{
    for i in 0..n {
        show_message(t, at + MESSAGE * i, text);
        text.put(b'\n');
    }
}
