ghost use Rattle.std.specs.Prelude.{◌≡◌, ℕ, ◌≤◌, Bool};
ghost use Rattle.rules.specs.Limits.{most_held};
ghost use Rattle.rules.specs.Kinds.{Kind as Rules, Lawful};
ghost use Rattle.kinds.specs.Holders.{holder};

// How a kind that holds messages differs from others that do.
pub trait Rule: Sized {
    ghost rules: { Rules };

    ghost ROOM: { ℕ };

    ghost KEEPS: { Bool };

    // A give is open while fewer than so many are held.
    const ROOM: usize;

    // Whether a take leaves the message where it is.
    const KEEPS: bool;

    ghost lawful: { Lawful most_held rules };

    ghost few: { ROOM ≤ most_held };

    ghost holds: { holder ROOM KEEPS ≡ rules };
}
