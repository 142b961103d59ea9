ghost use Rattle.std.specs.Prelude.{◌≡◌, ◌+◌, ◌≤◌, length, All, IfOk, IfErr};
ghost use Rattle.ic_base.specs.declared.refusals.Cause.TheVariants.{Memory};
ghost use Rattle.ic_tokens.specs.Views.{word_at, seen_kind, seen_token, seen_tokens};
ghost use Rattle.ic_syntax.specs.TokenTexts.{lexeme_seen, lexemes_seen};

use ic_base::Op;
use ic_items::Fault;
use ic_tokens::{Fixed, Token, TokenKind, fixed_word, operator};
use std::alloc::Global;

/// A token with what it says.
#[derive(Clone, Copy, Debug)]
pub enum TokenText<'a> {
    Number(i64),
    Name(&'a [u8]),
    Fixed(Fixed),
    Operator(Op),
}

fn word_at(line: &[u8], token: Token) -> &[u8]
    requires { token.place + token.length ≤ length line.now }
    ensures { result.now ≡ word_at line.now token }
{
    &line[token.place..token.place + token.length]
}

fn fixed_lexeme(word: &[u8]) -> TokenText<'_>
    ensures { lexeme_seen result ≡ seen_kind TokenKind.Fixed word.now }
{
    match fixed_word(word) {
        Some(fixed) => TokenText::Fixed(fixed),
        None => TokenText::Name(word),
    }
}

fn operator_lexeme(word: &[u8]) -> TokenText<'_>
    ensures { lexeme_seen result ≡ seen_kind TokenKind.Operator word.now }
{
    match operator(word) {
        Some(op) => TokenText::Operator(op),
        None => TokenText::Name(word),
    }
}

fn lexeme_of(line: &[u8], token: Token) -> TokenText<'_>
    requires { token.place + token.length ≤ length line.now }
    ensures { lexeme_seen result ≡ seen_token line.now token }
{
    let word = word_at(line, token);
    match token.kind {
        TokenKind::Number(z) => TokenText::Number(z),
        TokenKind::Name => TokenText::Name(word),
        TokenKind::Fixed => fixed_lexeme(word),
        TokenKind::Operator => operator_lexeme(word),
    }
}

/// What the tokens of a line say.
pub fn lexemes_of<'a>(
    alloc: Global,
    line: &'a [u8],
    tokens: &[Token],
) -> Result<Vec<TokenText<'a>>, Fault>
    requires { All (λ t. t.place + t.length ≤ length line.now) tokens.now }
    ensures ok { IfOk result (λ v. lexemes_seen v.items ≡ seen_tokens line.now tokens.now) }
    ensures err { IfErr result (λ e. e.0 ≡ Memory) }
{
    let mut lexemes = Vec::new(alloc);
    for token in tokens {
        lexemes.push(lexeme_of(line, *token))?;
    }
    Ok(lexemes)
}
