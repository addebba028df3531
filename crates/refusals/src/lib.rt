// What a refusal is told by.
//
// The engine says why it refuses by a cause. What writes answers for others needs the number alone, so it takes whatever has one: a cause, or
// any byte, which is written as it is.
#![tactic(auto)]

ghost use Rattle.std.specs.Prelude.{ℕ, ◌≡◌};
ghost use Rattle.atlite.specs.Causes.{number};

use atlite::Cause;

pub trait Refusal: Copy {
    // The number that is written.
    ghost number: { Self → ℕ };

    fn number(self) -> u8
        ensures { result ≡ number self };
}

impl Refusal for Cause {
    ghost number = { number };

    fn number(self) -> u8 {
        Cause::number(self)
    }
}

impl Refusal for u8 {
    ghost number = { λ n. n };

    fn number(self) -> u8 {
        self
    }
}
