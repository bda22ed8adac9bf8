ghost use Rattle.std.specs.Prelude.{◌≡◌, ◌↔◌, IsTrue};
ghost use Rattle.tokens.specs.Places.{Smallest};
ghost use Rattle.tokens.specs.Text.{Allowed, IsForeignByte, IsTooDeep};
ghost use Rattle.tokens.specs.TextFaults.{text_number, text_place, TextVerdict};

// A script has at most so many bytes.
pub const LONGEST_TEXT: usize = 16384;

// No bracket opens inside so many open ones.
const DEEPEST: usize = 24;

// What is wrong with a script's bytes, before its tokens are looked at.
#[derive(Clone, Copy, Debug, PartialEq, Eq)]
pub enum TextFault {
    TooLong,
    ForeignByte { at: usize },
    TooDeep { at: usize },
}

impl TextFault {
    pub fn number(self) -> u32
        ensures { result ≡ text_number self }
    {
        match self {
            TextFault::TooLong => 1,
            TextFault::ForeignByte { .. } => 2,
            TextFault::TooDeep { .. } => 3,
        }
    }

    pub fn place(self) -> usize
        ensures { result ≡ text_place self }
    {
        match self {
            TextFault::TooLong => LONGEST_TEXT,
            TextFault::ForeignByte { at } | TextFault::TooDeep { at } => at,
        }
    }
}

// Printable ASCII, or a separator.
fn allowed(b: u8) -> bool
    ensures { IsTrue result ↔ Allowed b }
{
    matches!(b, b' '..=b'~' | b'\t' | b'\n' | b'\r')
}

fn first_foreign_byte(text: &[u8]) -> Option<usize>
    ensures { Smallest (IsForeignByte text.now) result }
{
    text.iter().position(|b| !allowed(*b))
}

// A closing bracket with none open closes nothing.
#[tactic(auto, using(crate::proofs::Opening::open_after_more))]
fn first_too_deep(text: &[u8]) -> Option<usize>
    ensures { Smallest (IsTooDeep text.now) result }
{
    let mut depth = 0usize;
    for (i, b) in text.iter().enumerate() {
        match *b {
            b'(' if depth == DEEPEST => return Some(i),
            b'(' => depth += 1,
            b')' => depth = depth.saturating_sub(1),
            _ => {}
        }
    }
    None
}

// Tries the three faults in turn, each over the whole text, so that the first kind that
// occurs is named even where a later kind stands before it.
pub fn check_text(text: &[u8]) -> Result<(), TextFault>
    ensures { TextVerdict text.now result }
{
    if text.len() > LONGEST_TEXT {
        return Err(TextFault::TooLong);
    }
    if let Some(at) = first_foreign_byte(text) {
        return Err(TextFault::ForeignByte { at });
    }
    if let Some(at) = first_too_deep(text) {
        return Err(TextFault::TooDeep { at });
    }
    Ok(())
}
