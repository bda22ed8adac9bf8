ghost use Rattle.std.specs.Prelude.{◌≡◌};
ghost use Rattle.script.specs.Checks.{Leaves, Answers};
ghost use Rattle.script.specs.Refusals.{Verdict};

use crate::checked::Checked;
use crate::fault::Fault;
use crate::parsed::Parsed;
use message::kind::Message;
use std::alloc::Global;
use tokens::text::check_text;

// The bytes of a script that is still to be checked.
#[derive(Drop)]
pub struct Text<'a> {
    bytes: &'a [u8],
}

impl<'a> Text<'a> {
    pub fn new(bytes: &'a [u8]) -> Text<'a>
        ensures { result.bytes.now ≡ bytes.now }
    {
        Text { bytes }
    }
}

// Tries each rule in turn, each over the whole text.
fn read<M: Message>(heap: Global, text: &[u8]) -> Result<Checked<M>, Fault>
    ensures { Answers M.Literal.literal text.now result }
{
    check_text(text)?;
    Parsed::new(heap, text)?.admit(heap)
}

// Checks a script for a message kind, and leaves it in the table; a refused one leaves `(task 0)` there.
pub fn check<M: Message>(heap: Global, text: Text<'_>, table: &mut Checked<M>) -> Result<(), Fault>
    ensures verdict { Verdict M.Literal.literal text.entry.bytes.now result }
    ensures table { Leaves M.Literal.literal text.entry.bytes.now result table.new }
{
    *table = Checked::new(heap);
    *table = read(heap, text.bytes)?;
    Ok(())
}
