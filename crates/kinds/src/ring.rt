ghost use Rattle.std.specs.Prelude.{◌≡◌, ◌<◌, ◌≤◌, ◌∷◌, [], ◌++◌, length, Some};
ghost use Rattle.rules.specs.Limits.{most_held};
ghost use Rattle.rules.specs.Kinds.{oldest, younger};
ghost use Rattle.kinds.specs.Rings.{ring};
ghost use Rattle.kinds.specs.Stores.{messages};

use crate::kind::MOST_HELD;

// Where the messages of one port lie among its cells: from the oldest on, going round.
#[derive(Clone, Copy)]
pub struct Ring {
    pub first: usize,
    pub count: usize,
    ghost inside: { first < most_held },
    ghost few: { count ≤ most_held },
}

impl Ring {
    pub const EMPTY: Ring = Ring { first: 0, count: 0 };

    // Puts a message behind the others.
    pub fn push<M: Copy>(&mut self, message: M, cells: &mut [M])
        requires room { self.old.count < most_held }
        requires cells { length cells.old ≡ most_held }
        ensures { (d : M) → messages d cells.new (ring self.new.first self.new.count) ≡ messages d cells.old (ring self.old.first self.old.count) ++ (message ∷ []) }
    {
        cells[(self.first + self.count) % MOST_HELD] = message;
        self.count += 1;
    }

    // The oldest message.
    pub fn front<M: Copy>(self, cells: &[M]) -> M
        requires some { 0 < self.count }
        requires cells { length cells.now ≡ most_held }
        ensures { (d : M) → Some result ≡ oldest (messages d cells.now (ring self.first self.count)) }
    {
        cells[self.first]
    }

    // Lets the oldest message go.
    pub fn pop(&mut self)
        requires { 0 < self.old.count }
        ensures { ring self.new.first self.new.count ≡ younger (ring self.old.first self.old.count) }
    {
        self.first = (self.first + 1) % MOST_HELD;
        self.count -= 1;
    }
}
