//! Tokens of filter expressions.

ghost use Rattle.std.specs.Prelude.{◌≡◌, ◌≢◌, ◌≤◌, ◌<◌, ◌+◌, ◌-◌, ◌∷◌, false, IsTrue, drop, length, map, take_while};
ghost use Rattle.std.specs.Prelude.{not};
ghost use Rattle.std.specs.List.{position_from, prefix_len};
ghost use Rattle.filter_tokens.specs.ShownTokens.{shown_first, shown_token};
ghost use Rattle.filter_tokens.specs.Tokens.{word, escaped_token, first_token, has_two_colons, is_alphanumeric, is_blank, is_continuation};
ghost use Rattle.filter_tokens.specs.Tokens.{is_run_byte, run_of, symbol_of, word_of, word_token};
ghost use Rattle.filter_tokens.specs.declared.token.TokenKind.{TokenKind};

use crate::filter_error::FilterErrorKind;
use crate::keyword::Keyword;
use crate::names::is_not_taken;
use crate::primitive::Relation;
use crate::value::byte_place;

/// Token of a filter expression.
#[derive(Clone, Copy)]
pub struct Token {
    /// Kind of the token.
    pub kind: TokenKind,
    /// Offset in bytes at which the token begins.
    pub start: usize,
    /// Offset in bytes at which the token ends.
    pub end: usize,
}

/// Kind of a token of a filter expression.
#[derive(Clone, Copy)]
pub enum TokenKind {
    /// A keyword.
    Keyword(Keyword),
    /// A word that is no keyword.
    Word,
    /// `and` or `&&`
    And,
    /// `or` or `||`
    Or,
    /// `not` or `!`
    Not,
    /// `=`, `==`, `!=`, `<`, `<=`, `>` or `>=`
    Relation(Relation),
    /// `(`
    Open,
    /// `)`
    Close,
    /// `[`
    LeftBracket,
    /// `]`
    RightBracket,
    /// `:`
    Colon,
    /// `/`
    Slash,
    /// `&`
    Ampersand,
    /// `|`
    Bar,
    /// A token that no filter expression contains, and why.
    Wrong(FilterErrorKind),
    /// The end of the text.
    End,
}

/// Symbols, and their tokens. Longer symbols come before their first bytes: `<=` is one token.
static SYMBOLS: [(&str, TokenKind); 25] = [
    ("&&", TokenKind::And),
    ("||", TokenKind::Or),
    ("!=", TokenKind::Relation(Relation::NotEqual)),
    ("!", TokenKind::Not),
    ("==", TokenKind::Relation(Relation::Equal)),
    ("=", TokenKind::Relation(Relation::Equal)),
    ("<=", TokenKind::Relation(Relation::LessOrEqual)),
    ("<<", TokenKind::Wrong(FilterErrorKind::Arithmetic)),
    ("<", TokenKind::Relation(Relation::Less)),
    (">=", TokenKind::Relation(Relation::GreaterOrEqual)),
    (">>", TokenKind::Wrong(FilterErrorKind::Arithmetic)),
    (">", TokenKind::Relation(Relation::Greater)),
    ("(", TokenKind::Open),
    (")", TokenKind::Close),
    ("[", TokenKind::LeftBracket),
    ("]", TokenKind::RightBracket),
    // `colon_token` reads a `:` before this row can; it is here as it is in the definition.
    (":", TokenKind::Colon),
    ("/", TokenKind::Slash),
    ("&", TokenKind::Ampersand),
    ("|", TokenKind::Bar),
    ("+", TokenKind::Wrong(FilterErrorKind::Arithmetic)),
    ("*", TokenKind::Wrong(FilterErrorKind::Arithmetic)),
    ("%", TokenKind::Wrong(FilterErrorKind::Arithmetic)),
    ("^", TokenKind::Wrong(FilterErrorKind::Arithmetic)),
    ("-", TokenKind::Wrong(FilterErrorKind::Arithmetic)),
];

/// Returns the first token at or after an offset of a text. The offset must be at most the text's length.
#[tactic(auto, using(crate::proofs::TokenLemmas::length_of_run))]
pub fn token_at(text: &[u8], at: usize) -> Token
    requires { at ≤ length text.now }
    ensures order { (at ≤ result.start) × (result.start ≤ result.end) × (result.end ≤ length text.now) }
    ensures some { result.kind ≢ TokenKind.End → result.start < result.end }
    ensures start { result.start ≡ at + length (take_while is_blank (drop at text.now)) }
    ensures token { shown_first result.kind (result.end - result.start) (drop result.start text.now)
        ≡ first_token (drop result.start text.now) }
{
    let start = at + blanks_len(&text[at..]);
    let (kind, len) = first_token(&text[start..]);
    Token {
        kind,
        start,
        end: start + len,
    }
}

/// Returns the number of blanks at the start of a text.
fn blanks_len(text: &[u8]) -> usize
    ensures bound { result ≤ length text.now }
    ensures value { result ≡ prefix_len is_blank text.now }
{
    find_non_blank(text).unwrap_or(text.len())
}

/// Returns the offset of the first byte of a text that is no blank.
fn find_non_blank(text: &[u8]) -> Option<usize>
    ensures { result ≡ position_from (λ byte. not (is_blank byte)) 0 text.now }
{
    text.iter().position(|byte| !is_blank(*byte))
}

/// Returns true if a byte is a blank: space, tab, line feed or carriage return.
fn is_blank(byte: u8) -> bool
    ensures { result ≡ is_blank byte }
{
    matches!(byte, b' ' | b'\t' | b'\n' | b'\r')
}

/// Returns the token at the start of a text, and its length in bytes. The text does not begin with a blank. The longest
/// symbol counts: `<=` is one token.
fn first_token(text: &[u8]) -> (TokenKind, usize)
    ensures bound { result.1 ≤ length text.now }
    ensures some { result.0 ≢ TokenKind.End → 0 < result.1 }
    ensures token { shown_first result.0 result.1 text.now ≡ first_token text.now }
{
    let [first, others @ ..] = text else {
        return (TokenKind::End, 0);
    };
    if is_alphanumeric(*first) {
        return word_token(word_of(text));
    }
    if *first == b':' {
        return colon_token(text);
    }
    if *first == b'\\' {
        return escaped_token(others);
    }
    symbol_token(&SYMBOLS, text)
}

/// Returns true if a byte is a letter or digit of ASCII.
fn is_alphanumeric(byte: u8) -> bool
    ensures { result ≡ is_alphanumeric byte }
{
    byte.is_ascii_alphanumeric()
}

/// Returns the token of the first symbol of a list that a text begins with, and its length in bytes. For a text that
/// begins with none of them, returns an error with the length of the text's first character.
fn symbol_token(symbols: &[(&'static str, TokenKind)], text: &[u8]) -> (TokenKind, usize)
    requires { 0 < length text.now }
    ensures bound { result.1 ≤ length text.now }
    ensures token { shown_first result.0 result.1 text.now
        ≡ symbol_of (map (λ row. (row.0.now, shown_token row.1 row.0.now)) symbols.now) text.now }
{
    for (symbol, kind) in symbols {
        if text.starts_with(symbol.as_bytes()) {
            return (*kind, symbol.len());
        }
    }
    (
        TokenKind::Wrong(FilterErrorKind::Character),
        character_len(text),
    )
}

/// Returns the token of a backslash, given the text after it: the backslash with the run after it.
#[tactic(auto, using(crate::proofs::TokenLemmas::length_of_run, crate::proofs::TokenLemmas::escaped_alone, crate::proofs::TokenLemmas::escaped_run))]
fn escaped_token(others: &[u8]) -> (TokenKind, usize)
    ensures bound { result.1 ≤ length others.now + 1 }
    ensures token { shown_first result.0 result.1 (92 ∷ others.now) ≡ escaped_token (run_of others.now) }
{
    let len = run_len(others);
    if len == 0 {
        (TokenKind::Wrong(FilterErrorKind::Character), 1)
    } else {
        (TokenKind::Wrong(FilterErrorKind::NotTaken), len + 1)
    }
}

/// Returns the token at the start of a text that begins with a colon: a word if its run has two colons or more (such as
/// `::1`), else the colon.
#[tactic(auto, using(crate::proofs::TokenLemmas::length_of_run))]
fn colon_token(text: &[u8]) -> (TokenKind, usize)
    requires { 0 < length text.now }
    ensures bound { result.1 ≤ length text.now }
    ensures word { IsTrue (has_two_colons (run_of text.now))
        → shown_first result.0 result.1 text.now ≡ (length (run_of text.now), word (run_of text.now)) }
    ensures colon { has_two_colons (run_of text.now) ≡ false → (result.0 ≡ TokenKind.Colon) × (result.1 ≡ 1) }
{
    let len = run_len(text);
    if has_two_colons(&text[..len]) {
        (TokenKind::Word, len)
    } else {
        (TokenKind::Colon, 1)
    }
}

/// Returns the token of a word that begins with a letter or digit, and its length.
fn word_token(word: &[u8]) -> (TokenKind, usize)
    ensures token { shown_token result.0 word.now ≡ word_token word.now }
    ensures len { result.1 ≡ length word.now }
{
    (word_kind(word), word.len())
}

/// Returns the kind of a word that begins with a letter or digit.
fn word_kind(word: &[u8]) -> TokenKind
    ensures { shown_token result word.now ≡ word_token word.now }
{
    if word == b"and".as_slice() {
        return TokenKind::And;
    }
    if word == b"or".as_slice() {
        return TokenKind::Or;
    }
    if word == b"not".as_slice() {
        return TokenKind::Not;
    }
    if let Some(keyword) = Keyword::of_word(word) {
        return TokenKind::Keyword(keyword);
    }
    if is_not_taken(word) {
        return TokenKind::Wrong(FilterErrorKind::NotTaken);
    }
    TokenKind::Word
}

/// Returns the word at the start of a text that begins with a letter or digit: its run if that has two colons or more,
/// else the run up to a colon.
fn word_of(text: &[u8]) -> &[u8]
    ensures value { result.now ≡ word_of text.now }
    ensures bound { length result.now ≤ length text.now }
{
    let run = &text[..run_len(text)];
    if has_two_colons(run) {
        return run;
    }
    &run[..byte_place(run, b':')]
}

/// Returns the length in bytes of the run at the start of a text: letters, digits, `.`, `_`, `:` and `-`.
fn run_len(text: &[u8]) -> usize
    ensures bound { result ≤ length text.now }
    ensures value { result ≡ prefix_len is_run_byte text.now }
{
    find_non_run_byte(text).unwrap_or(text.len())
}

/// Returns the offset of the first byte of a text that is none of a run.
fn find_non_run_byte(text: &[u8]) -> Option<usize>
    ensures { result ≡ position_from (λ byte. not (is_run_byte byte)) 0 text.now }
{
    text.iter().position(|byte| !is_run_byte(*byte))
}

/// Returns true if a byte is one of a run: a letter, a digit, `.`, `_`, `:` or `-`.
fn is_run_byte(byte: u8) -> bool
    ensures { result ≡ is_run_byte byte }
{
    is_alphanumeric(byte) || matches!(byte, b'.' | b'_' | b':' | b'-')
}

/// Returns true if a run has two colons or more.
fn has_two_colons(run: &[u8]) -> bool
    ensures { result ≡ has_two_colons run.now }
{
    run.iter().filter(|byte| **byte == b':').count() > 1
}

/// Returns the length in bytes of the character at the start of a text: one byte, and the continuation bytes after it
/// (RFC 3629).
#[tactic(auto, using(crate::proofs::TokenLemmas::length_of_run))]
fn character_len(text: &[u8]) -> usize
    ensures bound { result ≤ length text.now }
    ensures value { 0 < length text.now → result ≡ 1 + length (take_while is_continuation (drop 1 text.now)) }
{
    let [_, others @ ..] = text else {
        return 0;
    };
    continuation_len(others) + 1
}

/// Returns the number of continuation bytes at the start of a text.
fn continuation_len(text: &[u8]) -> usize
    ensures bound { result ≤ length text.now }
    ensures value { result ≡ prefix_len is_continuation text.now }
{
    find_non_continuation(text).unwrap_or(text.len())
}

/// Returns the offset of the first byte of a text that is no continuation byte.
fn find_non_continuation(text: &[u8]) -> Option<usize>
    ensures { result ≡ position_from (λ byte. not (is_continuation byte)) 0 text.now }
{
    text.iter().position(|byte| !is_continuation(*byte))
}

/// Returns true if a byte is one of a character after its first one.
fn is_continuation(byte: u8) -> bool
    ensures { result ≡ is_continuation byte }
{
    matches!(byte, 0x80..=0xbf)
}
