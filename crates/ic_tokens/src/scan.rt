ghost use Rattle.std.specs.Prelude.{◌≡◌, ◌+◌, ◌≤◌, ◌==◌, ◌||◌, length, take, map, position, option_map, is_some, FitsSigned, All, IfSome, IfOk, IfErr};
ghost use Rattle.std.specs.List.{list_all, position_or_len};
ghost use Rattle.std.specs.Int.{w64};
ghost use Rattle.std.specs.Char.{is_ascii_digit, is_ascii_lowercase};
ghost use Rattle.def_syntax.specs.Text.{tokens_of, schedule_tokens_of, tokens_with, token_with, all_tokens, words_of, words_from, pieces, is_blank, is_text, is_name, number_of, natural, at_most, look_up, operators};
ghost use Rattle.ic_tokens.specs.Views.{seen_kind, seen_tokens, kind_seen, HasItsKind, placed, fixed_if, RefusedFor};
ghost use Rattle.ic_tokens.specs.declared.scan.LineRefused.TheVariants.{Memory};

use crate::words::{fixed_word, operator};
use ic_base::Items;
use ic_base::limits::NAME_CHARACTERS;
use std::alloc::{AllocError, AllocFailed, Global};

/// What a token is. The number is read; the word of the others stands in the line.
#[derive(Clone, Copy, Debug, PartialEq, Eq)]
pub enum TokenKind {
    Number(i64),
    Name,
    Fixed,
    Operator,
}

/// A token, with its place and length in its line.
#[derive(Clone, Copy, Debug, PartialEq, Eq)]
pub struct Token {
    pub kind: TokenKind,
    /// How many bytes of the line stand in front of it.
    pub place: usize,
    pub length: usize,
}

pub type Tokens = Items<Token>;

/// Why a line has no tokens.
#[derive(Clone, Copy, Debug, PartialEq, Eq)]
pub enum LineRefused {
    /// It has a byte that no line may have, in a comment too.
    NotText,
    /// It has a word that is no token.
    Word,
    /// Want of memory, which is no fault of the line.
    Memory,
}

impl From<AllocError> for LineRefused {
    ghost from_gives = { λ _ e. e ≡ Memory };

    fn from(_: AllocError) -> Self {
        LineRefused::Memory
    }
}

impl<T: Drop> From<AllocFailed<T>> for LineRefused {
    ghost from_gives = { λ _ e. e ≡ Memory };

    fn from(_: AllocFailed<T>) -> Self {
        LineRefused::Memory
    }
}

/// A blank parts words.
fn is_blank(b: u8) -> bool
    ensures { result ≡ is_blank b }
{
    b == b' ' || b == b'\t' || b == b'\r'
}

/// A byte that a line may have.
fn is_text(b: u8) -> bool
    ensures { result ≡ is_text b }
{
    is_blank(b) || (0x20 <= b && b <= 0x7E)
}

fn is_name_byte(b: u8) -> bool
    ensures { result ≡ is_ascii_lowercase b || is_ascii_digit b || (b == 95) }
{
    b.is_ascii_lowercase() || b.is_ascii_digit() || b == b'_'
}

fn are_name_bytes(bytes: &[u8]) -> bool
    ensures { result ≡ list_all (λ b. is_ascii_lowercase b || is_ascii_digit b || (b == 95)) bytes.now }
{
    bytes.iter().all(|b| is_name_byte(*b))
}

fn is_name(word: &[u8]) -> bool
    ensures { result ≡ is_name word.now }
{
    match word {
        [] => false,
        [first, more @ ..] => {
            if !first.is_ascii_lowercase() || more.len() >= NAME_CHARACTERS {
                return false;
            }
            are_name_bytes(more)
        }
    }
}

/// The number of these digits, where there is one at most this limit.
pub fn magnitude(digits: &[u8], limit: u64) -> Option<u64>
    ensures { result ≡ at_most limit (natural digits.now) }
{
    if digits.is_empty() {
        return None;
    }
    let mut value = 0u64;
    for d in digits {
        if !d.is_ascii_digit() {
            return None;
        }
        let next = u128::from(value) * 10 + u128::from(*d - b'0');
        if next > u128::from(limit) {
            return None;
        }
        value = next as u64;
    }
    Some(value)
}

/// The number that a word is, if it is one.
fn number(word: &[u8]) -> Option<i64>
    ensures value { result ≡ number_of word.now }
    ensures fits { IfSome result (λ z. FitsSigned w64 z) }
{
    match word {
        [] => None,
        [b'-', digits @ ..] => match magnitude(digits, 9223372036854775808) {
            Some(n) => Some(0i64.wrapping_sub_unsigned(n)),
            None => None,
        },
        [_, ..] => match magnitude(word, 9223372036854775807) {
            Some(n) => Some(n as i64),
            None => None,
        },
    }
}

/// Whether a word is a fixed one, where there are any.
fn is_fixed(word: &[u8], fixed: bool) -> bool
    ensures { result ≡ is_some (look_up word.now (fixed_if fixed)) }
{
    fixed && fixed_word(word).is_some()
}

fn is_operator(word: &[u8]) -> bool
    ensures { result ≡ is_some (look_up word.now operators) }
{
    operator(word).is_some()
}

/// What a word is, where the fixed words are told from names or not.
fn kind_of(word: &[u8], fixed: bool) -> Option<TokenKind>
    ensures token { token_with (fixed_if fixed) word.now ≡ option_map (λ k. seen_kind k word.now) result }
    ensures kind { IfSome result (λ k. kind_seen (seen_kind k word.now) ≡ k) }
{
    if is_fixed(word, fixed) {
        return Some(TokenKind::Fixed);
    }
    if is_name(word) {
        return Some(TokenKind::Name);
    }
    match number(word) {
        Some(n) => Some(TokenKind::Number(n)),
        None => {
            if is_operator(word) {
                Some(TokenKind::Operator)
            } else {
                None
            }
        }
    }
}

/// Where the first blank stands, if there is one.
fn blank_place(text: &[u8]) -> Option<usize>
    ensures { result ≡ position is_blank text.now }
{
    text.iter().position(|b| is_blank(*b))
}

/// How many bytes the first word has, none where a blank stands first.
#[tactic(auto, using(crate::proofs::Cuts::place_or_all))]
fn word_length(text: &[u8]) -> usize
    ensures place { result ≡ position_or_len is_blank text.now }
    ensures inside { result ≤ length text.now }
{
    blank_place(text).unwrap_or(text.len())
}

/// Where the comment begins, if there is one.
fn comment_place(line: &[u8]) -> Option<usize>
    ensures { result ≡ position (λ b. b == 35) line.now }
{
    line.iter().position(|b| *b == b'#')
}

/// How many bytes stand in front of the comment.
#[tactic(auto, using(crate::proofs::Cuts::place_or_all))]
fn plain_length(line: &[u8]) -> usize
    ensures place { result ≡ position_or_len (λ b. b == 35) line.now }
    ensures inside { result ≤ length line.now }
{
    comment_place(line).unwrap_or(line.len())
}

fn all_text(line: &[u8]) -> bool
    ensures { result ≡ list_all is_text line.now }
{
    line.iter().all(|b| is_text(*b))
}

/// The tokens among the first bytes of a line.
fn words_in(alloc: Global, line: &[u8], end: usize, fixed: bool) -> Result<Tokens, LineRefused>
    requires { end ≤ length line.now }
    ensures ok { IfOk result (λ ts. all_tokens (fixed_if fixed) (words_from 0 (pieces (take end line.now)))
        ≡ Ok (seen_tokens line.now ts)) }
    ensures places { IfOk result (λ ts. words_from 0 (pieces (take end line.now)) ≡ map (placed line.now) ts) }
    ensures kinds { IfOk result (All (HasItsKind line.now)) }
    ensures inside { IfOk result (All (λ t. t.place + t.length ≤ length line.now)) }
    ensures err { IfErr result (RefusedFor (all_tokens (fixed_if fixed) (words_from 0 (pieces (take end line.now))))) }
{
    let text = &line[..end];
    let mut tokens = Items::new(alloc);
    let mut place = 0;
    while place < end {
        let length = word_length(&text[place..]);
        if length > 0 {
            match kind_of(&line[place..place + length], fixed) {
                Some(kind) => tokens.push(Token {
                    kind,
                    place,
                    length,
                })?,
                None => return Err(LineRefused::Word),
            }
        }
        place += length + 1;
    }
    Ok(tokens)
}

fn tokens_in(alloc: Global, line: &[u8], fixed: bool) -> Result<Tokens, LineRefused>
    ensures ok { IfOk result (λ ts. tokens_with (fixed_if fixed) line.now ≡ Ok (seen_tokens line.now ts)) }
    ensures places { IfOk result (λ ts. words_of line.now ≡ map (placed line.now) ts) }
    ensures kinds { IfOk result (All (HasItsKind line.now)) }
    ensures inside { IfOk result (All (λ t. t.place + t.length ≤ length line.now)) }
    ensures err { IfErr result (RefusedFor (tokens_with (fixed_if fixed) line.now)) }
{
    if !all_text(line) {
        return Err(LineRefused::NotText);
    }
    words_in(alloc, line, plain_length(line), fixed)
}

/// The tokens of a line of a scenario.
pub fn line_tokens(alloc: Global, line: &[u8]) -> Result<Tokens, LineRefused>
    ensures ok { IfOk result (λ ts. tokens_of line.now ≡ Ok (seen_tokens line.now ts)) }
    ensures places { IfOk result (λ ts. words_of line.now ≡ map (placed line.now) ts) }
    ensures kinds { IfOk result (All (HasItsKind line.now)) }
    ensures inside { IfOk result (All (λ t. t.place + t.length ≤ length line.now)) }
    ensures err { IfErr result (RefusedFor (tokens_of line.now)) }
{
    tokens_in(alloc, line, true)
}

/// The tokens of a line of a schedule, in which the fixed words of a scenario are names.
pub fn schedule_tokens(alloc: Global, line: &[u8]) -> Result<Tokens, LineRefused>
    ensures ok { IfOk result (λ ts. schedule_tokens_of line.now ≡ Ok (seen_tokens line.now ts)) }
    ensures places { IfOk result (λ ts. words_of line.now ≡ map (placed line.now) ts) }
    ensures kinds { IfOk result (All (HasItsKind line.now)) }
    ensures inside { IfOk result (All (λ t. t.place + t.length ≤ length line.now)) }
    ensures err { IfErr result (RefusedFor (schedule_tokens_of line.now)) }
{
    tokens_in(alloc, line, false)
}
