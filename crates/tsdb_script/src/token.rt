//! Tokens: words and texts, lent from the line, and marks. Depends on tsdb_base.
ghost use Rattle.std.specs.Prelude.{◌≡◌, ◌≤◌, length, IfOk};
ghost use Rattle.tsdb_base.specs.Limits.{max_text_bytes};
ghost use Rattle.tsdb_script.specs.Steps.{unescape, behind_first};
ghost use Rattle.tsdb_script.specs.Tokens.{is_keyword};

use std::alloc::Global;
use std::marker::Model;
use tsdb_base::{Memory, Text, TextFault};

/// A word. A contract sees its bytes.
#[derive(Drop)]
pub struct WordToken<'a> {
    bytes: &'a [u8],
}

impl<'a> Model for WordToken<'a> {
    ghost use Rattle.std.specs.Prelude.{ℕ, List};

    ghost Value = { List ℕ };

    ghost view = { λ word. word.bytes.now };
}

impl<'a> WordToken<'a> {
    /// The word of these bytes.
    pub fn of(bytes: &'a [u8]) -> WordToken<'a>
        ensures { result ≡ bytes.now }
    {
        WordToken { bytes }
    }

    /// The bytes.
    pub fn bytes(&self) -> &'a [u8]
        ensures { result.now ≡ self.now }
    {
        self.bytes
    }

    /// Whether the word is this keyword, which is given in lower case, in any ASCII case.
    pub fn is(&self, keyword: &[u8]) -> bool
        ensures { result ≡ is_keyword self.now keyword.now }
    {
        self.bytes.eq_ignore_ascii_case(keyword)
    }
}

/// A text as a line has it, between its quotes. A contract sees its content, in which a doubled quote stands once.
#[derive(Drop)]
pub struct Quoted<'a> {
    quote: u8,
    inside: &'a [u8],
}

impl<'a> Model for Quoted<'a> {
    ghost use Rattle.std.specs.Prelude.{ℕ, List};

    ghost Value = { List ℕ };

    ghost use Rattle.std.specs.Prelude.{◌≤◌, length};
    ghost use Rattle.tsdb_base.specs.Limits.{max_text_bytes};
    ghost use Rattle.tsdb_script.specs.Steps.{unescape};

    ghost view = { λ text. unescape text.quote text.inside.now };

    ghost invariant = { λ text. length (unescape text.quote text.inside.now) ≤ max_text_bytes };
}

impl<'a> Quoted<'a> {
    /// The text with this inside, whose content is short enough.
    pub fn of(quote: u8, inside: &'a [u8]) -> Quoted<'a>
        requires { length (unescape quote inside.now) ≤ max_text_bytes }
        ensures { result ≡ unescape quote inside.now }
    {
        Quoted { quote, inside }
    }

    /// The content.
    pub fn content(&self, alloc: Global) -> Result<Text, Memory>
        ensures { IfOk result (λ text. text ≡ self.now) }
    {
        let quote = self.quote;
        let mut bytes = Vec::with_capacity(alloc, self.inside.len())?;
        let mut rest = self.inside;
        while let Some((first, more)) = rest.split_first() {
            bytes.push(*first)?;
            rest = if *first == quote {
                skip_one(more)
            } else {
                more
            };
        }
        match Text::new(alloc, bytes.as_slice()) {
            Ok(text) => Ok(text),
            Err(TextFault::Memory) => Err(Memory),
            Err(TextFault::TooLong) => unreachable!(),
        }
    }
}

/// What stands behind the first byte, where there is one.
fn skip_one(bytes: &[u8]) -> &[u8]
    ensures { result.now ≡ behind_first bytes.now }
{
    match bytes.split_first() {
        Some((_, rest)) => rest,
        None => bytes,
    }
}

/// A token of a line.
#[derive(Drop)]
pub enum Token<'a> {
    Word(WordToken<'a>),
    Text(Quoted<'a>),
    Open,
    Close,
    Comma,
    Semicolon,
    Equal,
    Less,
    LessEqual,
    Greater,
    GreaterEqual,
}
