ghost use Rattle.std.specs.Prelude.{◌≡◌, codes};
ghost use Rattle.script.specs.Checks.{checked_text, Means};

use message::kind::Message;
use rows::row::Rows;
use std::alloc::Global;

// A script that was checked for one message kind. There is no way to one but `check`; a new one holds
// the script `(task 0)`.
#[derive(Drop)]
pub struct Checked<M: Drop> {
    // A copy of the script; no bytes stand for `(task 0)`, which so needs no memory.
    pub(crate) text: Vec<u8>,
    pub(crate) rows: Rows<M>,
}

impl<M: Message> Checked<M> {
    pub fn new(heap: Global) -> Checked<M>
        ensures { Means M.Literal.literal (codes "(task 0)") result }
    {
        Checked {
            text: Vec::new(heap),
            rows: Rows::empty(heap),
        }
    }

    // The script's bytes.
    pub fn text(&self) -> &[u8]
        ensures { result.now ≡ checked_text self.now }
    {
        if self.text.is_empty() {
            b"(task 0)"
        } else {
            self.text.as_slice()
        }
    }

    // The script in rows.
    pub fn rows(&self) -> &Rows<M>
        ensures { result.now ≡ self.now.rows }
    {
        &self.rows
    }
}
