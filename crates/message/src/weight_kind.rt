ghost use Rattle.std.specs.Prelude.{◌≡◌, ◌∷◌, length};
ghost use Rattle.message.specs.Literals.{Leads};
ghost use Rattle.message.specs.Signs.{sign_of};
ghost use Rattle.message.specs.Weights.{weight_blank, weight_literal, weight_plus};
ghost use Rattle.message.specs.Weighing.{weight_one};
ghost use Rattle.message.specs.Plains.{signed_plain, signed_short};
ghost use Rattle.std.proofs.Common.{arith};

use crate::decimal::{count_digits, leading_number, write_number};
use crate::kind::{Message, Sign};
use crate::literal::{Lead, Literal, LiteralFault};
use crate::page::{PageFull, has_room, write_bytes};
use crate::weight::Weight;

// How far a minus and the bytes after it agree with a weight.
fn leading_negative(rest: &[u8]) -> Lead<Weight>
    ensures { Leads weight_literal (45 ∷ rest.now) result }
{
    let digits = leading_number(rest, i32::MIN.unsigned_abs());
    match digits.value {
        Some(n) if n > 0 => Lead {
            length: digits.length + 1,
            value: 0i32.checked_sub_unsigned(n).map(|value| Weight { value }),
        },
        _ => Lead {
            length: 1,
            value: None,
        },
    }
}

impl Weight {
    // How many bytes the literal has.
    fn literal_length(self) -> usize
        ensures { result ≡ length (weight_literal self) }
    {
        let digits = count_digits(self.value.unsigned_abs());
        if self.value < 0 { digits + 1 } else { digits }
    }
}

impl Literal for Weight {
    ghost literal = { weight_literal };

    ghost one = { λ a b e. weight_one a b e };

    ghost plain = { λ w. signed_plain w.value w.fits };

    ghost short = { λ w. omega (arith, signed_short w.value w.fits) };

    fn room_after(self, room: usize) -> Option<usize> {
        room.checked_sub(self.literal_length())
    }

    fn write(self, page: &mut [u8], at: usize) -> Result<usize, PageFull> {
        if !has_room(page, at, self.literal_length()) {
            return Err(PageFull);
        }
        let size = self.value.unsigned_abs();
        if self.value < 0 {
            let from = write_bytes(page, at, b"-")?;
            return write_number(page, from, size);
        }
        write_number(page, at, size)
    }

    fn lead(s: &[u8]) -> Lead<Weight> {
        match s.strip_prefix(b"-") {
            Some(rest) => leading_negative(rest),
            None => {
                let Lead { length, value } = leading_number(s, i32::MAX.unsigned_abs());
                Lead {
                    length,
                    // The cast loses no number up to `i32::MAX`.
                    value: value.map(|n| Weight { value: n as i32 }),
                }
            }
        }
    }
}

impl Message for Weight {
    ghost initial = { weight_blank };

    ghost plus = { weight_plus };

    ghost message_sign = { λ w. sign_of w.value };

    fn blank() -> Self {
        Weight { value: 0 }
    }

    fn add(self, k: i32) -> Self {
        Weight {
            value: self.value.saturating_add(k),
        }
    }

    fn sign(self) -> Sign {
        Sign::from(i64::from(self.value))
    }
}
