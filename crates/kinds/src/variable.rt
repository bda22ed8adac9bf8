ghost use Rattle.rules.specs.Delivered as delivered;
ghost use Rattle.std.proofs.Common.{lit≤};
ghost use Rattle.kinds.specs.Held.{holder_variable, variable_lawful};

use crate::buffer::Buffer;
use crate::rule::Rule;

// IVars: set once, and every take gets the message.
pub type Ivar = Buffer<VariableRule<true>>;

// MVars: set, taken, and set again.
pub type Mvar = Buffer<VariableRule<false>>;

// A const parameter is a number or a bool: here whether a take leaves the message.
pub struct VariableRule<const IS_KEPT: bool>;

impl<const IS_KEPT: bool> Rule for VariableRule<IS_KEPT> {
    ghost rules = { delivered.variable IS_KEPT };

    ghost ROOM = { 1 };

    ghost KEEPS = { IS_KEPT };

    ghost lawful = { variable_lawful IS_KEPT };

    ghost few = { lit≤ tt };

    ghost holds = { holder_variable IS_KEPT };

    const ROOM: usize = 1;

    const KEEPS: bool = IS_KEPT;
}
