// Whether words are the dictionary of a state or of a table: three words an entry, each entry a word of a script's own, and none of them twice.
// An entry is put into bytes, so that the reader's own test of words serves here too.
#![tactic(auto)]

ghost use Rattle.std.specs.Prelude.{◌≡◌, ◌+◌, ◌*◌, ◌≤◌, nat_eq, length};
ghost use Rattle.std.specs.List.{list_all};
ghost use Rattle.std.proofs.lemmas.List.Edits.{sets};
ghost use Rattle.atlite.specs.Base.{same_bytes};
ghost use Rattle.dictionary.specs.Entries.{four_bytes, AreBytes, spelled, own_word, entry, entry_at, among_at, entry_holds, entries_hold};

// Puts the four bytes of `w`, the lowest first, at `at`.
#[tactic(auto, using(crate::specs::EntryLaws::laws))]
fn spell(w: u32, t: &mut [u8; 12], at: usize)
    requires { at + 4 ≤ 12 }
    ensures { t.new ≡ sets t.old at (four_bytes w) }
{
    t[at] = (w % 256) as u8;
    t[at + 1] = (w / 256 % 256) as u8;
    t[at + 2] = (w / 65536 % 256) as u8;
    t[at + 3] = (w / 16777216) as u8;
}

// Whether `t` has only zeros.
fn ends(t: &[u8]) -> bool
    ensures { result ≡ list_all (λ b. nat_eq b 0) t.now }
{
    t.iter().all(|b| *b == 0)
}

// Whether the bytes `t` are a word of a script's own, but not `apply`, and then zeros.
#[tactic(auto, using(crate::specs::EntryLaws::laws))]
fn is_own(t: &[u8; 12]) -> bool
    requires { AreBytes t.now }
    ensures { result ≡ own_word (spelled t.now) }
{
    // The first test stands by itself, since the check does not go through a chain of three here.
    let end = scan::run_end(t, 0);
    if !ends(&t[end..]) {
        return false;
    }
    !scan::named(t, 0, end, b"apply") && scan::is_word(t, 0, end)
}

// Whether three words are an entry.
#[tactic(auto, using(crate::specs::EntryLaws::laws))]
fn is_entry(a: u32, b: u32, c: u32) -> bool
    ensures { result ≡ own_word (entry a b c) }
{
    let mut t = [0u8; 12];
    spell(a, &mut t, 0);
    spell(b, &mut t, 4);
    spell(c, &mut t, 8);
    is_own(&t)
}

// Whether the entries at `i` and at `j` are the same.
#[tactic(auto, using(crate::specs::EntryLaws::laws))]
fn same_entry(w: &[u32], i: usize, j: usize) -> bool
    requires { (i + 3 ≤ length w.now) × (j + 3 ≤ length w.now) }
    ensures { result ≡ same_bytes (entry_at w.now i) (entry_at w.now j) }
{
    // As in `is_own`.
    if w[i] != w[j] {
        return false;
    }
    w[i + 1] == w[j + 1] && w[i + 2] == w[j + 2]
}

// Whether one of the `n` entries at `at` is the entry at `it`.
#[tactic(auto, using(crate::specs::EntryLaws::laws))]
fn again(w: &[u32], at: usize, n: usize, it: usize) -> bool
    requires { (at + 3 * n ≤ length w.now) × (it + 3 ≤ length w.now) }
    ensures { result ≡ among_at w.now at n (entry_at w.now it) }
{
    for k in 0..n {
        if same_entry(w, at + 3 * k, it) {
            return true;
        }
    }
    false
}

// Whether the entry at `at` is one, and none of the `n` behind it.
#[tactic(auto, using(crate::specs::EntryLaws::laws))]
fn is_first(w: &[u32], at: usize, n: usize) -> bool
    requires { at + 3 + 3 * n ≤ length w.now }
    ensures { result ≡ entry_holds w.now at n }
{
    is_entry(w[at], w[at + 1], w[at + 2]) && !again(w, at + 3, n, at)
}

// Whether the `n` entries at `at` are a dictionary. It rules out that a reserved word, `apply`, a word that stands twice or one with
// a byte behind its end passes.
#[tactic(auto, using(crate::specs::EntryLaws::laws))]
pub fn is_dictionary(w: &[u32], at: usize, n: usize) -> bool
    requires { at + 3 * n ≤ length w.now }
    ensures { result ≡ entries_hold w.now at n }
{
    for k in 0..n {
        if !is_first(w, at + 3 * k, n - k - 1) {
            return false;
        }
    }
    true
}
