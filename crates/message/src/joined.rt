ghost use Rattle.std.specs.Prelude.{◌≡◌, ◌∷◌, ◌++◌};
ghost use Rattle.message.specs.Pages.{Writes, RoomAfter};
ghost use Rattle.message.specs.Literals.{Leads};
ghost use Rattle.message.specs.Joins.{joined as literals, Free};

use crate::kind::Message;
use crate::literal::{Lead, Literal};
use crate::page::{PageFull, write_bytes};

// Two values that are written one after the other, with a byte between them.
#[derive(Clone, Copy, Debug, PartialEq, Eq)]
pub struct Joined<A, B> {
    pub left: A,
    pub right: B,
}

impl<A: Literal, B: Message> Joined<A, B> {
    // What is left of so many bytes after both parts and the separator; None where they do not fit.
    pub fn room_after(self, room: usize) -> Option<usize>
        ensures { (b : _) → RoomAfter (literals A.Literal.literal b B.Literal.literal self) room result }
    {
        let rest = self.left.room_after(room)?.checked_sub(1)?;
        self.right.room_after(rest)
    }

    // Writes the left part, the separator and the right part.
    pub fn write(self, separator: u8, page: &mut [u8], at: usize) -> Result<usize, PageFull>
        ensures { Writes page.old at (literals A.Literal.literal separator B.Literal.literal self) page.new result }
    {
        let Some(room) = page.len().checked_sub(at) else {
            return Err(PageFull);
        };
        // `is_none` would leave less to prove from.
        if let None = self.room_after(room) {
            return Err(PageFull);
        }
        let middle = self.left.write(page, at)?;
        let right = write_bytes(page, middle, &[separator])?;
        self.right.write(page, right)
    }

    // How far the bytes agree with both parts; no left part has the separator in its literal.
    pub fn lead(separator: u8, s: &[u8]) -> Lead<Joined<A, B>>
        requires { (a : A) → Free separator (A.Literal.literal a) }
        ensures { Leads (literals A.Literal.literal separator B.Literal.literal) s.now result }
    {
        let first = A::lead(s);
        match (first.value, s[first.length..].strip_prefix(&[separator])) {
            (Some(left), Some(rest)) => {
                let second = B::lead(rest);
                Lead {
                    length: first.length + 1 + second.length,
                    value: second.value.map(|right| Joined { left, right }),
                }
            }
            _ => Lead {
                length: first.length,
                value: None,
            },
        }
    }
}
