//! A text as lines, with their numbers and the bytes that they take.

ghost use Rattle.std.specs.Prelude.{◌≡◌, ℕ, ◌≤◌, ◌<◌, ◌+◌, ◌^◌, ◌==◌, ◌∷◌, [], length, IfSome, IfNone};
ghost use Rattle.std.specs.List.{position_from};
ghost use Rattle.aud_text.specs.Lines.{lines_of, line_len, Splits, filled_left, filled_at};

use memchr::memchr;

/// A line without its line feed, and what stands after it.
#[derive(Clone, Copy, Debug)]
pub struct LineAt<'a> {
    pub line: &'a [u8],
    pub rest: &'a [u8],
}

/// A line that is not empty, its number, and what stands after it.
#[derive(Clone, Copy, Debug)]
pub struct FilledLine<'a> {
    pub number: usize,
    pub line: &'a [u8],
    pub rest: &'a [u8],
}

/// The first line of a text, if it has one. A line ends at a line feed, which the last may lack.
pub fn first_line(text: &[u8]) -> Option<LineAt<'_>>
    ensures some { IfSome result (λ l. lines_of text.entry.now ≡ l.line.now ∷ lines_of l.rest.now) }
    ensures parts { IfSome result (λ l. Splits text.entry.now l.line.now l.rest.now) }
    ensures shorter { IfSome result (λ l. length l.rest.now < length text.entry.now) }
    ensures none { IfNone result (text.entry.now ≡ []) }
{
    if text.is_empty() {
        return None;
    }
    let end = line_end(text);
    if end == text.len() {
        return Some(LineAt {
            line: text,
            rest: &[],
        });
    }
    Some(LineAt {
        line: &text[..end],
        rest: &text[end + 1..],
    })
}

fn feed_at(text: &[u8]) -> Option<usize>
    ensures { result ≡ position_from (λ x. x == 10) 0 text.now }
{
    memchr(b'\n', text)
}

fn line_end(text: &[u8]) -> usize
    ensures value { result ≡ line_len text.now }
    ensures within { result ≤ length text.now }
{
    match feed_at(text) {
        Some(end) => end,
        None => text.len(),
    }
}

/// How many lines a text has, empty ones too.
pub fn count_lines(text: &[u8]) -> usize
    ensures count { result ≡ length (lines_of text.now) }
    ensures few { result ≤ length text.now }
{
    let mut count = 0;
    let mut rest = text;
    while let Some(first) = first_line(rest) {
        count += 1;
        rest = first.rest;
    }
    count
}

/// The first line that is not empty, where the first line of the text has the number.
/// The text may be what is left of a longer one: `all` stands for the bytes of that.
pub fn next_filled(text: &[u8], number: usize) -> Option<FilledLine<'_>>
    requires { number + length text.now < 2 ^ 64 }
    ensures some { IfSome result (λ l. (all : ℕ) → length text.entry.now ≤ all
        → filled_left all number text.entry.now ≡ filled_at all l.number l.line.now l.rest.now ∷ filled_left all (l.number + 1) l.rest.now) }
    ensures nearer { IfSome result (λ l. l.number + length l.rest.now < number + length text.entry.now) }
    ensures none { IfNone result ((all : ℕ) → length text.entry.now ≤ all → filled_left all number text.entry.now ≡ []) }
{
    let mut rest = text;
    let mut at = number;
    while let Some(first) = first_line(rest) {
        if !first.line.is_empty() {
            return Some(FilledLine {
                number: at,
                line: first.line,
                rest: first.rest,
            });
        }
        rest = first.rest;
        at += 1;
    }
    None
}
