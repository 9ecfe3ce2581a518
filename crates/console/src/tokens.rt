// A line of a script, cut at white space.
ghost use Rattle.std.specs.Prelude.{◌<◌, ◌≤◌, length};
ghost use Rattle.std.specs.Iterator.{at_most};

/// The words of a line, up to a `#` that begins a comment. White space is the ASCII one, so that a carriage return before the line feed belongs to no word.
#[derive(Drop)]
pub struct Tokens<'a> {
    rest: &'a [u8],
}

fn before_comment(line: &[u8]) -> &[u8] {
    for (i, b) in line.iter().enumerate() {
        if *b == b'#' {
            return &line[0..i];
        }
    }
    line
}

/// Where the first word begins, or the length.
fn word_start(text: &[u8]) -> usize
    ensures { result ≤ length text.now }
{
    for (i, b) in text.iter().enumerate() {
        if !b.is_ascii_whitespace() {
            return i;
        }
    }
    text.len()
}

/// Where the word at the front ends.
fn word_end(text: &[u8]) -> usize
    requires { 0 < length text.now }
    ensures some { 0 < result }
    ensures within { result ≤ length text.now }
{
    for i in 1..text.len() {
        if text[i].is_ascii_whitespace() {
            return i;
        }
    }
    text.len()
}

impl<'a> Tokens<'a> {
    pub fn of(line: &'a [u8]) -> Tokens<'a> {
        Tokens {
            rest: before_comment(line),
        }
    }
}

impl<'a> Iterator for Tokens<'a> {
    type Item = &'a [u8];

    ghost remaining = { λ s. at_most (length s.rest.now) };

    fn next(&mut self) -> Option<&'a [u8]> {
        let rest = self.rest;
        let text = &rest[word_start(rest)..];
        if text.is_empty() {
            return None;
        }
        let end = word_end(text);
        self.rest = &text[end..];
        Some(&text[0..end])
    }
}
