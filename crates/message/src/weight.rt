ghost use Rattle.std.specs.Prelude.{◌<◌};
ghost use Rattle.std.specs.Int.Signed.{mag};

// A signed weight. The fact makes each value of the type one that 32 bits hold, so that laws over
// all weights need no premise.
#[derive(Clone, Copy, Debug, PartialEq, Eq)]
pub struct Weight {
    pub value: i32,
    ghost fits: { mag value < 2147483648 },
}
