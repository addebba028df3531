// The nodes of a script.
ghost use Rattle.std.specs.Prelude.{◌≡◌, ◌%◌, ◌≤◌, nat_lt, count_by, length};
ghost use Rattle.layout.specs.Numbers.{field_kind};
ghost use Rattle.words.specs.Wide.{wide_kinds};
ghost use Rattle.checks.specs.Size.{Size};

use words::wide;

// The nodes of the script that the lines in the first `words` words are when joined: theirs, and one for each line but the last.
#[tactic(auto, using(crate::specs::Size::laws))]
pub fn size(s: &[u64; 4096], words: usize, lines: usize) -> usize
    requires { (words ≤ 4096) × (lines ≤ 4096) }
    ensures { Size s.now words lines result }
{
    let n = nodes(&s[..words]);
    if lines == 0 {
        return n;
    }
    n + lines - 1
}

// How many of the words are nodes and no headers.
fn nodes(s: &[u64]) -> usize
    ensures counted { result ≡ count_by (λ h. nat_lt (h % wide_kinds) field_kind) s.now }
    ensures few { result ≤ length s.now }
{
    s.iter().filter(|h| **h % wide::KINDS < 128).count()
}
