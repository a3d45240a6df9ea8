//! One pass over the bytes of a source.
ghost use Rattle.std.specs.Prelude.{◌≡◌, ◌≤◌, length, false};
ghost use Rattle.ild_lex.specs.Bytes.{is_letter, is_digit, is_word_byte, is_mark, is_blank};
ghost use Rattle.ild_lex.specs.inside.Scan.{skip, skip_while, begins_with_digit, piece_of, piece_of_text, piece_seen, first_of, first_seen};

use crate::{Token, TokenKind};

/// What stands at the front of bytes.
#[derive(Clone, Copy)]
enum Found<'b> {
    /// A token, and what is left behind it.
    Token(TokenKind, &'b [u8]),
    /// A byte at which no token begins or goes on, with what follows it.
    Wrong(&'b [u8]),
    /// A text without an end on its line.
    Unended,
}

/// What comes first in bytes.
#[derive(Clone, Copy)]
pub(crate) enum Next<'b> {
    /// A token, and what is left behind it.
    Token(Token, &'b [u8]),
    /// White space and comments up to the end.
    End,
    /// A wrong byte at this place.
    Char(usize),
    /// A text from this place without an end on its line.
    Unended(usize),
}

fn is_letter(b: u8) -> bool
    ensures { result ≡ is_letter b }
{
    b.is_ascii_alphabetic() || b == b'_'
}

fn is_word_byte(b: u8) -> bool
    ensures { result ≡ is_word_byte b }
{
    is_letter(b) || b.is_ascii_digit()
}

fn is_mark(b: u8) -> bool
    ensures { result ≡ is_mark b }
{
    matches!(
        b,
        b'{' | b'}' | b'[' | b']' | b'(' | b')' | b':' | b'=' | b'|' | b'&'
    )
}

fn is_blank(b: u8) -> bool
    ensures { result ≡ is_blank b }
{
    matches!(b, b' ' | b'\t' | b'\r' | b'\n')
}

/// What is left behind white space and comments.
fn after_gap(bytes: &[u8]) -> &[u8]
    ensures { result.now ≡ skip false bytes.now }
{
    let mut rest = bytes;
    let mut comment = false;
    while let [b, more @ ..] = rest {
        if comment {
            comment = *b != b'\n';
        } else if *b == b'#' {
            comment = true;
        } else if !is_blank(*b) {
            return rest;
        }
        rest = more;
    }
    rest
}

fn after_word(bytes: &[u8]) -> &[u8]
    ensures { result.now ≡ skip_while is_word_byte bytes.now }
{
    let mut rest = bytes;
    while let [b, more @ ..] = rest {
        if !is_word_byte(*b) {
            return rest;
        }
        rest = more;
    }
    rest
}

fn after_digits(bytes: &[u8]) -> &[u8]
    ensures { result.now ≡ skip_while is_digit bytes.now }
{
    let mut rest = bytes;
    while let [b, more @ ..] = rest {
        if !b.is_ascii_digit() {
            return rest;
        }
        rest = more;
    }
    rest
}

fn begins_with_digit(bytes: &[u8]) -> bool
    ensures { result ≡ begins_with_digit bytes.now }
{
    match bytes {
        [] => false,
        [b, ..] => b.is_ascii_digit(),
    }
}

/// The text whose first quote stands before the bytes.
fn text_at(bytes: &[u8]) -> Found<'_>
    ensures { piece_seen result ≡ piece_of_text bytes.now }
{
    let mut rest = bytes;
    loop {
        match rest {
            [] => return Found::Unended,
            [b'"', more @ ..] => return Found::Token(TokenKind::Text, more),
            [b'\n', ..] => return Found::Unended,
            [b'\\'] => return Found::Unended,
            [b'\\', b'"', more @ ..] => rest = more,
            [b'\\', b'\\', more @ ..] => rest = more,
            [b'\\', b'\n', ..] => return Found::Unended,
            [b'\\', ..] => return Found::Wrong(rest),
            [_, more @ ..] => rest = more,
        }
    }
}

/// The longest token at the front, or why there is none.
fn found_at(bytes: &[u8]) -> Found<'_>
    ensures { piece_seen result ≡ piece_of bytes.now }
{
    let [b, more @ ..] = bytes else {
        return Found::Wrong(bytes);
    };
    if is_letter(*b) {
        Found::Token(TokenKind::Word, after_word(more))
    } else if b.is_ascii_digit() {
        Found::Token(TokenKind::Number, after_digits(more))
    } else if *b == b'-' {
        if begins_with_digit(more) {
            Found::Token(TokenKind::Number, after_digits(more))
        } else {
            Found::Wrong(bytes)
        }
    } else if *b == b'"' {
        text_at(more)
    } else if is_mark(*b) {
        Found::Token(TokenKind::Mark, more)
    } else {
        Found::Wrong(bytes)
    }
}

/// What comes first in the bytes, which are the last ones of a text that ends at `end`.
pub(crate) fn first_at(end: usize, bytes: &[u8]) -> Next<'_>
    requires { length bytes.now ≤ end }
    ensures { first_seen result ≡ first_of end bytes.now }
{
    let rest = after_gap(bytes);
    if rest.is_empty() {
        return Next::End;
    }
    let at = end - rest.len();
    match found_at(rest) {
        Found::Token(kind, after) => {
            let end = end - after.len();
            Next::Token(Token { kind, at, end }, after)
        }
        Found::Wrong(from) => Next::Char(end - from.len()),
        Found::Unended => Next::Unended(at),
    }
}
