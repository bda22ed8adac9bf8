ghost use Rattle.rows.specs.Scripts.{OneScript};

use message::kind::Message;

// A text is one script at most, so what check accepts has one meaning.
pub fn a_text_is_one_script<M: Message>()
    ensures { OneScript M.Literal.literal }
{}
