// The calls of a script, from the text of a line.
use crate::numerals::{decimal_number, hex_word};
use crate::set_choice::SetChoice;
use crate::tokens::Tokens;
use std::alloc::{AllocError, AllocFailed, Global};

/// A call, with what its line gives it.
#[derive(Drop)]
pub enum Call {
    /// Chooses the operator set.
    Set(SetChoice),
    /// Replaces the table.
    Table(Vec<u32>),
    /// Appends to the table.
    More(Vec<u32>),
    /// Reads the table.
    Admit,
}

/// Why a line gives no call.
#[derive(Clone, Copy, PartialEq, Eq, Debug)]
pub enum Unread {
    NotUnderstood,
    Memory,
}

impl From<AllocError> for Unread {
    fn from(_e: AllocError) -> Unread {
        Unread::Memory
    }
}

impl<T: Drop> From<AllocFailed<T>> for Unread {
    fn from(_e: AllocFailed<T>) -> Unread {
        Unread::Memory
    }
}

/// Adds the words that the tokens spell.
pub fn hex_words(words: &mut Vec<u32>, tokens: Tokens<'_>) -> Result<(), Unread> {
    for token in tokens {
        let Some(word) = hex_word(token) else {
            return Err(Unread::NotUnderstood);
        };
        words.push(word)?;
    }
    Ok(())
}

fn only_token<'a>(mut tokens: Tokens<'a>) -> Option<&'a [u8]> {
    let only = tokens.next()?;
    match tokens.next() {
        None => Some(only),
        Some(_) => None,
    }
}

fn set_call(tokens: Tokens<'_>) -> Option<Call> {
    let number = decimal_number(only_token(tokens)?)?;
    Some(Call::Set(SetChoice::of_number(number)?))
}

fn bare_call(mut tokens: Tokens<'_>, call: Call) -> Option<Call> {
    match tokens.next() {
        None => Some(call),
        Some(_) => None,
    }
}

impl Call {
    /// The call of a line, or none where the line is blank or a comment.
    pub fn parse(heap: Global, line: &[u8]) -> Result<Option<Call>, Unread> {
        let mut tokens = Tokens::of(line);
        let Some(name) = tokens.next() else {
            return Ok(None);
        };
        let mut words = Vec::new(heap);
        let call = match name {
            b"set" => set_call(tokens),
            b"table" => {
                hex_words(&mut words, tokens)?;
                Some(Call::Table(words))
            }
            b"more" => {
                hex_words(&mut words, tokens)?;
                Some(Call::More(words))
            }
            b"admit" => bare_call(tokens, Call::Admit),
            _ => None,
        };
        match call {
            Some(_) => Ok(call),
            None => Err(Unread::NotUnderstood),
        }
    }
}
