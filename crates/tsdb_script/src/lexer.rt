//! Cuts a line into its tokens, in one pass. Depends on `token` and `fault`.
ghost use Rattle.std.specs.Prelude.{◌≡◌, ◌==◌, length, Some, None, IfOk, IfErr, IfSome, drop, option_map};
ghost use Rattle.std.specs.Prelude.{if◌then◌else◌};
ghost use Rattle.tsdb_script.specs.Steps.{after_blanks, content_parts, mark_at, or_equal, text_at, token_at};
ghost use Rattle.tsdb_script.specs.Steps.{unescape, word_parts, FaultsWith};
ghost use Rattle.tsdb_script.specs.Tokens.{is_blank, is_mark, is_quote, is_word_byte, starts, AreTokens, HasNoTokens};

use crate::fault::LineFault;
use crate::token::{Quoted, Token, WordToken};
use std::collections::VecDeque;
use tsdb_base::limits::MAX_TEXT_BYTES;

/// A byte that begins no token.
const STRAY_BYTE: LineFault = LineFault::Bad { kind: 3 };

/// A text that is not closed, or is too long.
const BAD_TEXT: LineFault = LineFault::Bad { kind: 6 };

/// For each byte, whether it may stand in a word.
pub const WORD_BYTES: [u8; 256] = [
    0, 0, 0, 0, 0, 0, 0, 0, 0, 0, 0, 0, 0, 0, 0, 0, 0, 0, 0, 0, 0, 0, 0, 0, 0, 0, 0, 0, 0, 0, 0, 0,
    0, 0, 0, 0, 0, 0, 0, 0, 0, 0, 1, 1, 0, 1, 1, 0, 1, 1, 1, 1, 1, 1, 1, 1, 1, 1, 0, 0, 0, 0, 0, 0,
    0, 1, 1, 1, 1, 1, 1, 1, 1, 1, 1, 1, 1, 1, 1, 1, 1, 1, 1, 1, 1, 1, 1, 1, 1, 1, 1, 0, 0, 0, 0, 1,
    0, 1, 1, 1, 1, 1, 1, 1, 1, 1, 1, 1, 1, 1, 1, 1, 1, 1, 1, 1, 1, 1, 1, 1, 1, 1, 1, 0, 0, 0, 0, 0,
    0, 0, 0, 0, 0, 0, 0, 0, 0, 0, 0, 0, 0, 0, 0, 0, 0, 0, 0, 0, 0, 0, 0, 0, 0, 0, 0, 0, 0, 0, 0, 0,
    0, 0, 0, 0, 0, 0, 0, 0, 0, 0, 0, 0, 0, 0, 0, 0, 0, 0, 0, 0, 0, 0, 0, 0, 0, 0, 0, 0, 0, 0, 0, 0,
    0, 0, 0, 0, 0, 0, 0, 0, 0, 0, 0, 0, 0, 0, 0, 0, 0, 0, 0, 0, 0, 0, 0, 0, 0, 0, 0, 0, 0, 0, 0, 0,
    0, 0, 0, 0, 0, 0, 0, 0, 0, 0, 0, 0, 0, 0, 0, 0, 0, 0, 0, 0, 0, 0, 0, 0, 0, 0, 0, 0, 0, 0, 0, 0,
];

/// Reads the tokens of a line, in place of those of another. A byte that begins no token is a fault of kind 3, a text that
/// is not closed or too long one of kind 6, and the first from the left is found.
pub fn read_tokens<'a>(line: &'a [u8], tokens: &mut VecDeque<Token<'a>>) -> Result<(), LineFault>
    ensures tokens { IfOk result (λ _. AreTokens line.now tokens.new.items) }
    ensures bad { IfErr result (FaultsWith (HasNoTokens line.now)) }
{
    tokens.clear();
    let mut rest = behind_blanks(line);
    while !rest.is_empty() {
        let (token, more) = first_token(rest)?;
        tokens.push_back(token)?;
        rest = behind_blanks(more);
    }
    Ok(())
}

fn is_blank(byte: u8) -> bool
    ensures { result ≡ is_blank byte }
{
    byte == b' ' || byte == b'\t'
}

/// Whether the byte may stand in a word.
fn is_word_byte(byte: u8) -> bool
    ensures { result ≡ is_word_byte byte }
{
    WORD_BYTES[usize::from(byte)] == 1
}

fn is_quote(byte: u8) -> bool
    ensures { result ≡ is_quote byte }
{
    byte == b'\'' || byte == b'"'
}

fn is_mark(byte: u8) -> bool
    ensures { result ≡ is_mark byte }
{
    byte == b'('
        || (byte == b')'
            || (byte == b',' || (byte == b';' || (byte == b'=' || (byte == b'<' || byte == b'>')))))
}

/// What stands behind the blanks.
pub fn behind_blanks(bytes: &[u8]) -> &[u8]
    ensures { result.now ≡ after_blanks bytes.now }
{
    for (at, byte) in bytes.iter().enumerate() {
        if !is_blank(*byte) {
            return &bytes[at..];
        }
    }
    &[]
}

/// The token that the bytes begin with, and what stands behind it.
fn first_token<'a>(bytes: &'a [u8]) -> Result<(Token<'a>, &'a [u8]), LineFault>
    ensures found { IfOk result (λ r. token_at bytes.now ≡ Some (r.0, r.1.now)) }
    ensures bad { IfErr result (λ f. (token_at bytes.now ≡ None)
        × (f ≡ (if starts is_quote bytes.now then BAD_TEXT else STRAY_BYTE))) }
{
    let Some((first, rest)) = bytes.split_first() else {
        return Err(STRAY_BYTE);
    };
    if is_mark(*first) {
        Ok(mark(*first, rest))
    } else if is_quote(*first) {
        text(*first, rest)
    } else if is_word_byte(*first) {
        let (word, rest) = word(bytes);
        Ok((Token::Word(word), rest))
    } else {
        Err(STRAY_BYTE)
    }
}

/// The mark that begins with this byte, and what stands behind it.
fn mark<'a>(first: u8, rest: &'a [u8]) -> (Token<'a>, &'a [u8])
    ensures { (result.0, result.1.now) ≡ mark_at first rest.now }
{
    match first {
        b'(' => (Token::Open, rest),
        b')' => (Token::Close, rest),
        b',' => (Token::Comma, rest),
        b';' => (Token::Semicolon, rest),
        b'=' => (Token::Equal, rest),
        b'<' => less(rest),
        _ => greater(rest),
    }
}

/// `<=` where the rest begins with `=`, and else `<`.
fn less<'a>(rest: &'a [u8]) -> (Token<'a>, &'a [u8])
    ensures { (result.0, result.1.now) ≡ or_equal Token.Less Token.LessEqual rest.now }
{
    match rest.split_first() {
        Some((b'=', more)) => (Token::LessEqual, more),
        _ => (Token::Less, rest),
    }
}

/// `>=` where the rest begins with `=`, and else `>`.
fn greater<'a>(rest: &'a [u8]) -> (Token<'a>, &'a [u8])
    ensures { (result.0, result.1.now) ≡ or_equal Token.Greater Token.GreaterEqual rest.now }
{
    match rest.split_first() {
        Some((b'=', more)) => (Token::GreaterEqual, more),
        _ => (Token::Greater, rest),
    }
}

/// The longest word that the bytes begin with, and what stands behind it.
fn word<'a>(bytes: &'a [u8]) -> (WordToken<'a>, &'a [u8])
    ensures { (result.0, result.1.now) ≡ word_parts bytes.now }
{
    for (at, byte) in bytes.iter().enumerate() {
        if !is_word_byte(*byte) {
            let (word, rest) = bytes.split_at(at);
            return (WordToken::of(word), rest);
        }
    }
    (WordToken::of(bytes), &[])
}

/// The text behind its first quote, and what stands behind it.
fn text<'a>(quote: u8, bytes: &'a [u8]) -> Result<(Token<'a>, &'a [u8]), LineFault>
    ensures found { IfOk result (λ r. text_at quote bytes.now ≡ Some (r.0, r.1.now)) }
    ensures bad { IfErr result (λ f. (text_at quote bytes.now ≡ None) × (f ≡ BAD_TEXT)) }
{
    let Some((inside, length, rest)) = split_at_quote(quote, bytes) else {
        return Err(BAD_TEXT);
    };
    if length > MAX_TEXT_BYTES {
        return Err(BAD_TEXT);
    }
    Ok((Token::Text(Quoted::of(quote, inside)), rest))
}

/// What stands before the quote that ends a text, the length of its content, and what stands behind the quote.
fn split_at_quote(quote: u8, bytes: &[u8]) -> Option<(&[u8], usize, &[u8])>
    ensures content { option_map (λ r. (unescape quote r.0.now, r.2.now)) result ≡ content_parts quote bytes.now }
    ensures length { IfSome result (λ r. r.1 ≡ length (unescape quote r.0.now)) }
{
    let mut at = 0;
    let mut length = 0;
    while at < bytes.len() {
        if !has(bytes, at, quote) {
            at += 1;
        } else if has(bytes, at + 1, quote) {
            at += 2;
        } else {
            return Some((&bytes[..at], length, &bytes[at + 1..]));
        }
        length += 1;
    }
    None
}

/// Whether this byte stands at this place.
fn has(bytes: &[u8], at: usize, byte: u8) -> bool
    ensures { result ≡ starts (λ b. b == byte) (drop at bytes.now) }
{
    at < bytes.len() && bytes[at] == byte
}
