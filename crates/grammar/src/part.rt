ghost use Rattle.std.specs.Prelude.{◌≡◌};
ghost use Rattle.grammar.specs.Parts.{told, bytes};

use crate::words::Use;
use tokens::token::Token;

// A token, and what it is there for.
#[derive(Clone, Copy, Debug, PartialEq, Eq)]
pub struct Part<'a> {
    pub purpose: Use,
    pub token: Token<'a>,
}

impl<'a> Part<'a> {
    // The bytes of an integer or a word, none for a bracket.
    pub fn bytes(self) -> &'a [u8]
        ensures { result.now ≡ bytes (told self.entry) }
    {
        self.token.bytes()
    }
}
