// How many brackets of a text are open at once at most.
ghost use Rattle.std.specs.Prelude.{◌≡◌, ◌≤◌, length};
ghost use Rattle.atlite.specs.Reader.{depth as deepest};
ghost use Rattle.checks.specs.Depth.{Opened};

// How many brackets are open behind the byte `b`.
#[tactic(auto, using(crate::specs::Depth::laws))]
fn opened(b: u8, up: usize) -> usize
    requires { up ≤ 4096 }
    ensures { Opened b up result }
{
    match b {
        b'(' => up + 1,
        b')' => up.saturating_sub(1),
        _ => up,
    }
}

// The depth of a text of at most 4,096 bytes.
pub fn depth(text: &[u8]) -> usize
    requires { length text.now ≤ 4096 }
    ensures { result ≡ deepest text.now }
{
    let mut up = 0;
    let mut most = 0;
    for b in text {
        up = opened(*b, up);
        most = most.max(up);
    }
    most
}
