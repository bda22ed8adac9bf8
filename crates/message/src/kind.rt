ghost use Rattle.std.specs.Prelude.{◌≡◌, ℤ};
ghost use Rattle.message.specs.declared.kind.Sign.{Sign};
ghost use Rattle.message.specs.Signs.{sign_of};

use crate::literal::Literal;
use std::cmp::Ordering;

// What a guard tests.
#[derive(Clone, Copy, Debug, PartialEq, Eq)]
pub enum Sign {
    Neg,
    Zero,
    Pos,
}

// The sign of a number.
impl From<i64> for Sign {
    ghost from_gives = { λ n s. s ≡ sign_of n };

    fn from(n: i64) -> Sign {
        match n.cmp(&0) {
            Ordering::Less => Sign::Neg,
            Ordering::Equal => Sign::Zero,
            Ordering::Greater => Sign::Pos,
        }
    }
}

// A kind of messages.
pub trait Message: Literal {
    // The message of a fresh register.
    ghost initial: { Self };

    // A message with a number added.
    ghost plus: { Self → ℤ → Self };

    // The sign that a guard sees.
    ghost message_sign: { Self → Sign };

    fn blank() -> Self
        ensures { result ≡ initial };

    fn add(self, k: i32) -> Self
        ensures { result ≡ plus self k };

    fn sign(self) -> Sign
        ensures { result ≡ message_sign self };
}
