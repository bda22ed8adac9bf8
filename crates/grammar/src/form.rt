ghost use Rattle.std.specs.Prelude.{◌≡◌, IfOk};
ghost use Rattle.std.specs.List.{AllByRecursion};
ghost use Rattle.grammar.specs.declared.form.FormFault.TheVariants.{Memory};
ghost use Rattle.grammar.specs.declared.form.ParseFault.TheVariants.{Memory as NoMemory};
ghost use Rattle.grammar.specs.Stacks.{Stepped, suits, ended};
ghost use Rattle.grammar.specs.Verdicts.{FormVerdict, ParseVerdict};
ghost use Rattle.tokens.specs.Reading.{Classified};

use crate::items::{Item, at_token};
use crate::part::Part;
use crate::words::Use;
use std::alloc::{AllocError, AllocFailed, Global};
use tokens::token::{Scanner, Token};

// Why tokens are no script.
#[derive(Clone, Copy, Debug, PartialEq, Eq)]
pub enum FormFault {
    // The first token with which no script goes on, or their number where tokens are missing.
    Misfit { token: usize },
    Memory,
}

impl From<AllocError> for FormFault {
    ghost from_gives = { λ _ r. r ≡ Memory };

    fn from(_e: AllocError) -> FormFault {
        FormFault::Memory
    }
}

impl<T: Drop> From<AllocFailed<T>> for FormFault {
    ghost from_gives = { λ _ r. r ≡ Memory };

    fn from(_e: AllocFailed<T>) -> FormFault {
        FormFault::Memory
    }
}

// Why a text is no script.
#[derive(Clone, Copy, Debug, PartialEq, Eq)]
pub enum ParseFault {
    // The place of the first token with which no script goes on, or the text's length where tokens
    // are missing.
    Misfit { at: usize },
    Memory,
}

impl From<AllocError> for ParseFault {
    ghost from_gives = { λ _ r. r ≡ NoMemory };

    fn from(_e: AllocError) -> ParseFault {
        ParseFault::Memory
    }
}

impl<T: Drop> From<AllocFailed<T>> for ParseFault {
    ghost from_gives = { λ _ r. r ≡ NoMemory };

    fn from(_e: AllocFailed<T>) -> ParseFault {
        ParseFault::Memory
    }
}

// A number has to be an integer; what else a use asks of a token, the token's place does.
fn is_fit(part: Part<'_>) -> bool
    ensures { result ≡ suits part.entry.purpose part.entry.token }
{
    !matches!(
        part,
        Part {
            purpose: Use::Number(_),
            token: Token::Word { .. }
        }
    )
}

// Reads a token: its use, or None where no script goes on with it.
fn step_on(stack: &mut Vec<Item>, token: Token<'_>) -> Result<Option<Use>, AllocError>
    ensures { IfOk result (λ o. Stepped stack.old.items token.entry o stack.new.items) }
{
    let Some(item) = stack.pop() else {
        return Ok(None);
    };
    let Some(reading) = at_token(item, token) else {
        return Ok(None);
    };
    let purpose = reading.purpose;
    if !is_fit(Part { purpose, token }) {
        return Ok(None);
    }
    stack.extend_from_slice(reading.next)?;
    Ok(Some(purpose))
}

// Whether a script may end here: it has a body, and no form is open.
fn is_end(stack: &[Item]) -> bool
    ensures { result ≡ ended stack.now }
{
    matches!(stack, [Item::Bodies])
}

// The parts of a script, or where the tokens stop being those of a script.
pub fn parts<'a>(heap: Global, tokens: &[Token<'a>]) -> Result<Vec<Part<'a>>, FormFault>
    ensures { AllByRecursion Classified tokens.now → FormVerdict tokens.now result }
{
    let mut stack = Vec::new(heap);
    stack.push(Item::Top)?;
    let mut found = Vec::new(heap);
    for (k, token) in tokens.iter().enumerate() {
        let Some(purpose) = step_on(&mut stack, *token)? else {
            return Err(FormFault::Misfit { token: k });
        };
        found.push(Part {
            purpose,
            token: *token,
        })?;
    }
    if is_end(&stack) {
        Ok(found)
    } else {
        Err(FormFault::Misfit {
            token: tokens.len(),
        })
    }
}

// The parts of a script by its text, or where the text stops being a script's. Each token goes into its
// part as it is found: all tokens beside all parts would take as much memory again.
pub fn parse<'a>(heap: Global, text: &'a [u8]) -> Result<Vec<Part<'a>>, ParseFault>
    ensures { ParseVerdict text.now result }
{
    let mut stack = Vec::new(heap);
    stack.push(Item::Top)?;
    let mut found = Vec::new(heap);
    let mut scanner = Scanner::new(text);
    while let Some(token) = scanner.next_token() {
        let Some(purpose) = step_on(&mut stack, token)? else {
            return Err(ParseFault::Misfit { at: token.place() });
        };
        found.push(Part { purpose, token })?;
    }
    if is_end(&stack) {
        Ok(found)
    } else {
        Err(ParseFault::Misfit { at: text.len() })
    }
}
