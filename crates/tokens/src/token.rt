ghost use Rattle.std.specs.Prelude.{◌≡◌, ◌-◌, ◌≤◌, length, IfOk};
ghost use Rattle.std.specs.List.{prefix_len};
ghost use Rattle.tokens.specs.Tokens.{class, place};
ghost use Rattle.tokens.specs.Reading.{placed};
ghost use Rattle.tokens.specs.Tokenised.{Tokenised, token_bytes};
ghost use Rattle.tokens.specs.Scanning.{meant, in_run, TokenOfRun};
ghost use Rattle.tokens.specs.Steps.{Scanned};

use crate::integer::is_integer;
use std::alloc::{AllocError, Global};

// A token of a script: the bytes that it is, and their offset.
#[derive(Clone, Copy, Debug, PartialEq, Eq)]
pub enum Token<'a> {
    Open { at: usize },
    Close { at: usize },
    Integer { at: usize, text: &'a [u8] },
    Word { at: usize, text: &'a [u8] },
}

impl<'a> Token<'a> {
    // The offset of the first byte.
    pub fn place(self) -> usize
        ensures { result ≡ place (placed self.entry) }
    {
        match self {
            Token::Open { at } | Token::Close { at } => at,
            Token::Integer { at, .. } | Token::Word { at, .. } => at,
        }
    }

    // The bytes of an integer or a word, none for a bracket.
    pub fn bytes(self) -> &'a [u8]
        ensures { result.now ≡ token_bytes self.entry }
    {
        match self {
            Token::Open { .. } | Token::Close { .. } => &[],
            Token::Integer { text, .. } | Token::Word { text, .. } => text,
        }
    }
}

// What a byte is to the tokens: it parts them, is one, or is in a run.
#[derive(Clone, Copy, PartialEq, Eq)]
enum Class {
    Separator,
    Open,
    Close,
    Run,
}

impl From<u8> for Class {
    ghost from_gives = { λ b r. meant r ≡ class b };

    fn from(b: u8) -> Class {
        match b {
            b' ' | b'\t' | b'\n' | b'\r' => Class::Separator,
            b'(' => Class::Open,
            b')' => Class::Close,
            _ => Class::Run,
        }
    }
}

// How many bytes the run at the front of the text has: 0 where none stands there.
fn run_length(text: &[u8]) -> usize
    ensures { result ≡ prefix_len in_run text.now }
{
    text.iter()
        .take_while(|b| Class::from(**b) == Class::Run)
        .count()
}

fn run_token<'a>(at: usize, text: &'a [u8]) -> Token<'a>
    ensures { TokenOfRun at text.now result }
{
    if is_integer(text) {
        Token::Integer { at, text }
    } else {
        Token::Word { at, text }
    }
}

// Goes over a text from left to right, token by token.
#[derive(Clone, Copy)]
pub struct Scanner<'a> {
    text: &'a [u8],
    // What of the text is still to be read.
    rest: &'a [u8],
    ghost within: { length rest.now ≤ length text.now },
}

impl<'a> Scanner<'a> {
    pub fn new(text: &'a [u8]) -> Scanner<'a>
        ensures text { result.text.now ≡ text.now }
        ensures rest { result.rest.now ≡ text.now }
    {
        Scanner { text, rest: text }
    }

    // The offset of what is left.
    fn place(&self) -> usize
        ensures { result ≡ length self.now.text.now - length self.now.rest.now }
    {
        self.text.len() - self.rest.len()
    }

    // The next token, a bracket or a longest run; None where the text ends.
    pub fn next_token(&mut self) -> Option<Token<'a>>
        ensures text { self.new.text.now ≡ self.old.text.now }
        ensures step { Scanned self.old.text.now self.old.rest.now self.new.rest.now result }
    {
        while let Some((&b, tail)) = self.rest.split_first() {
            match Class::from(b) {
                Class::Separator => self.rest = tail,
                Class::Open => {
                    let at = self.place();
                    self.rest = tail;
                    return Some(Token::Open { at });
                }
                Class::Close => {
                    let at = self.place();
                    self.rest = tail;
                    return Some(Token::Close { at });
                }
                Class::Run => {
                    let at = self.place();
                    let (run, after) = self.rest.split_at(run_length(self.rest));
                    self.rest = after;
                    return Some(run_token(at, run));
                }
            }
        }
        None
    }
}

// The brackets and the longest runs, from left to right.
pub fn tokens<'a>(heap: Global, text: &'a [u8]) -> Result<Vec<Token<'a>>, AllocError>
    ensures { IfOk result (λ v. Tokenised text.now v.items) }
{
    let mut found = Vec::new(heap);
    let mut scanner = Scanner::new(text);
    while let Some(token) = scanner.next_token() {
        found.push(token)?;
    }
    Ok(found)
}
