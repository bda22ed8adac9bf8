//! A place of a text, shown with its line and a caret.
#![tactic(auto)]

ghost use Rattle.std.specs.Prelude.{◌≡◌, ◌≤◌, min, length};
ghost use Rattle.excerpt.specs.Lines.{line_feeds, LineAt};
ghost use Rattle.excerpt.specs.Windows.{Window, ExcerptOf, shown_byte};

// So many bytes of a line are shown at most.
const WIDEST: usize = 72;

// Some bytes of a text; `end` is the place after the last of them.
#[derive(Clone, Copy, Debug, PartialEq, Eq)]
pub struct Span {
    pub start: usize,
    pub end: usize,
}

// What is shown of a place: its line, or the part around it. Line and column count from 0, and
// `caret` counts the shown bytes before the place.
#[derive(Clone, Copy)]
pub struct Excerpt<'a> {
    pub line: usize,
    pub column: usize,
    pub is_cut_before: bool,
    pub bytes: &'a [u8],
    pub is_cut_after: bool,
    pub caret: usize,
}

pub fn line_feeds(text: &[u8]) -> usize
    ensures value { result ≡ line_feeds text.now }
    ensures bound { result ≤ length text.now }
{
    text.iter().filter(|b| **b == b'\n').count()
}

// The line that the place lies in, which past the text's end is its last.
pub fn line_of(text: &[u8], at: usize) -> Span
    ensures { LineAt text.now (min at (length text.now)) result.start result.end }
{
    let at = at.min(text.len());
    let (before, after) = text.split_at(at);
    let start = before
        .iter()
        .rposition(|b| *b == b'\n')
        .map_or(0, |i| i + 1);
    let end = after
        .iter()
        .position(|b| *b == b'\n')
        .map_or(text.len(), |i| at + i);
    Span { start, end }
}

// The part of a line that is shown: all of it, or as much as there is room for around the place.
fn window(line: Span, at: usize) -> Span
    requires from { line.start ≤ at }
    requires to { at ≤ line.end }
    ensures { Window line.start line.end at result.start result.end }
{
    if line.end - line.start <= WIDEST {
        return line;
    }
    let start = at
        .saturating_sub(WIDEST / 2)
        .max(line.start)
        .min(line.end - WIDEST);
    Span {
        start,
        end: start + WIDEST,
    }
}

pub fn excerpt_at(text: &[u8], at: usize) -> Excerpt<'_>
    ensures { ExcerptOf text.now (min at (length text.now)) result }
{
    let at = at.min(text.len());
    let line = line_of(text, at);
    let part = window(line, at);
    Excerpt {
        line: line_feeds(&text[..at]),
        column: at - line.start,
        is_cut_before: line.start < part.start,
        bytes: &text[part.start..part.end],
        is_cut_after: part.end < line.end,
        caret: at - part.start,
    }
}

// One character for each byte, so that the caret stands under its own.
pub fn shown(b: u8) -> char
    ensures { result ≡ shown_byte b }
{
    match b {
        b' '..=b'~' => char::from(b),
        b'\t' | b'\r' => ' ',
        _ => '?',
    }
}
