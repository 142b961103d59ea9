ghost use Rattle.std.specs.Prelude.{◌≡◌, ◌+◌, ◌≤◌, length, All, [], ◌∷◌, IfOk, IfErr, Ok, Err, None, option_map};
ghost use Rattle.def_syntax.specs.Text.{tokens_of, XcomWord, TcomWord, PcomWord, VarWord, KeyWord, OnWord, SetWord, SendWord, OutWord, IfWord, TxnWord, GetWord, PutWord, NeedWord};
ghost use Rattle.ic_tokens.specs.Views.{seen_tokens};
ghost use Rattle.def_syntax.specs.SyntaxLines.{name_in, raw_operand_of, raw_operands_of, names_of, operator_in, raw_expr_of, one_name, one_number, is_immediate, nothing_behind, item_with, said, line_item};
ghost use Rattle.ic_items.specs.Views.{term_seen, terms_seen, formula_seen, item_seen, Fails};
ghost use Rattle.ic_tokens.specs.Words.{fixed_of};
ghost use Rattle.ic_syntax.specs.TokenTexts.{lexeme_seen, lexemes_seen, Reads, ReadsInPlace, FaultOf};

use crate::token_text::{TokenText, lexemes_of};
use ic_base::{Cause, Items, Name, Op};
use ic_items::{Fault, Names, RawExpr, RawOperand, SyntaxLine, Terms};
use ic_tokens::{Fixed, LineRefused, Tokens, line_tokens};
use std::alloc::Global;

fn name_in(alloc: Global, word: &TokenText<'_>) -> Result<Name, Fault>
    ensures reads { Reads (λ n. n) (name_in (lexeme_seen word.now)) result }
    ensures wrong { name_in (lexeme_seen word.now) ≡ None → result ≡ Err (record { 0 = Cause.Structure }) }
{
    match word {
        TokenText::Name(n) => Ok(Items::from_vec(n.to_vec(alloc)?)),
        _ => Err(Fault(Cause::Structure)),
    }
}

fn raw_operand_of(alloc: Global, word: &TokenText<'_>) -> Result<RawOperand, Fault>
    ensures reads { Reads term_seen (raw_operand_of (lexeme_seen word.now)) result }
    ensures wrong { raw_operand_of (lexeme_seen word.now) ≡ None → result ≡ Err (record { 0 = Cause.Structure }) }
{
    match word {
        TokenText::Number(z) => Ok(RawOperand::Digits(*z)),
        TokenText::Name(n) => Ok(RawOperand::Named(Items::from_vec(n.to_vec(alloc)?))),
        _ => Err(Fault(Cause::Structure)),
    }
}

fn operator_in(word: &TokenText<'_>) -> Result<Op, Fault>
    ensures { ReadsInPlace (λ op. op) (operator_in (lexeme_seen word.now)) result }
{
    match word {
        TokenText::Operator(op) => Ok(*op),
        _ => Err(Fault(Cause::Structure)),
    }
}

fn raw_operands_of(alloc: Global, words: &[TokenText<'_>]) -> Result<Terms, Fault>
    ensures { Reads terms_seen (raw_operands_of (lexemes_seen words.now)) result }
{
    let mut terms = Items::new(alloc);
    for word in words {
        terms.push(raw_operand_of(alloc, word)?)?;
    }
    Ok(terms)
}

fn names_of(alloc: Global, words: &[TokenText<'_>]) -> Result<Names, Fault>
    ensures { Reads (λ ns. ns) (names_of (lexemes_seen words.now)) result }
{
    let mut names = Items::new(alloc);
    for word in words {
        names.push(name_in(alloc, word)?)?;
    }
    Ok(names)
}

fn double_of(
    alloc: Global,
    x: &TokenText<'_>,
    o: &TokenText<'_>,
    y: &TokenText<'_>,
) -> Result<RawExpr, Fault>
    ensures { Reads formula_seen (raw_expr_of (lexeme_seen x.now ∷ lexeme_seen o.now ∷ lexeme_seen y.now ∷ [])) result }
{
    let left = raw_operand_of(alloc, x)?;
    let op = operator_in(o)?;
    let right = raw_operand_of(alloc, y)?;
    Ok(RawExpr::Double(left, op, right))
}

fn raw_expr_of(alloc: Global, words: &[TokenText<'_>]) -> Result<RawExpr, Fault>
    ensures { Reads formula_seen (raw_expr_of (lexemes_seen words.now)) result }
{
    match words {
        [x] => Ok(RawExpr::Single(raw_operand_of(alloc, x)?)),
        [x, o, y] => double_of(alloc, x, o, y),
        _ => Err(Fault(Cause::Structure)),
    }
}

fn one_name(alloc: Global, words: &[TokenText<'_>]) -> Result<Name, Fault>
    ensures reads { Reads (λ n. n) (one_name (lexemes_seen words.now)) result }
    ensures wrong { one_name (lexemes_seen words.now) ≡ None → result ≡ Err (record { 0 = Cause.Structure }) }
{
    match words {
        [n] => name_in(alloc, n),
        _ => Err(Fault(Cause::Structure)),
    }
}

fn one_number(words: &[TokenText<'_>]) -> Result<i64, Fault>
    ensures { ReadsInPlace (λ z. z) (one_number (lexemes_seen words.now)) result }
{
    match words {
        [TokenText::Number(z)] => Ok(*z),
        _ => Err(Fault(Cause::Structure)),
    }
}

fn is_immediate(words: &[TokenText<'_>]) -> Result<bool, Fault>
    ensures { ReadsInPlace (λ b. b) (is_immediate (lexemes_seen words.now)) result }
{
    match words {
        [] => Ok(false),
        [TokenText::Fixed(Fixed::Immediate)] => Ok(true),
        _ => Err(Fault(Cause::Structure)),
    }
}

#[tactic(auto, unfolding(def_syntax::specs::SyntaxLines::item_with))]
fn xcom_item(alloc: Global, words: &[TokenText<'_>]) -> Result<SyntaxLine, Fault>
    ensures { Reads item_seen (item_with XcomWord (lexemes_seen words.now)) result }
{
    Ok(SyntaxLine::Xcom(one_name(alloc, words)?))
}

#[tactic(auto, unfolding(def_syntax::specs::SyntaxLines::item_with))]
fn tcom_item(alloc: Global, words: &[TokenText<'_>]) -> Result<SyntaxLine, Fault>
    ensures { Reads item_seen (item_with TcomWord (lexemes_seen words.now)) result }
{
    Ok(SyntaxLine::Tcom(one_name(alloc, words)?))
}

#[tactic(auto, unfolding(def_syntax::specs::SyntaxLines::item_with))]
fn txn_item(alloc: Global, words: &[TokenText<'_>]) -> Result<SyntaxLine, Fault>
    ensures { Reads item_seen (item_with TxnWord (lexemes_seen words.now)) result }
{
    Ok(SyntaxLine::Txn(one_name(alloc, words)?))
}

#[tactic(auto, unfolding(def_syntax::specs::SyntaxLines::item_with))]
fn choice_item(alloc: Global, words: &[TokenText<'_>]) -> Result<SyntaxLine, Fault>
    ensures { Reads item_seen (item_with IfWord (lexemes_seen words.now)) result }
{
    Ok(SyntaxLine::If(raw_expr_of(alloc, words)?))
}

#[tactic(auto, unfolding(def_syntax::specs::SyntaxLines::item_with))]
fn need_item(alloc: Global, words: &[TokenText<'_>]) -> Result<SyntaxLine, Fault>
    ensures { Reads item_seen (item_with NeedWord (lexemes_seen words.now)) result }
{
    Ok(SyntaxLine::Need(raw_expr_of(alloc, words)?))
}

#[tactic(auto, unfolding(def_syntax::specs::SyntaxLines::item_with))]
fn pcom_item(alloc: Global, words: &[TokenText<'_>]) -> Result<SyntaxLine, Fault>
    ensures { Reads item_seen (item_with PcomWord (lexemes_seen words.now)) result }
{
    match words {
        [first, rest @ ..] => {
            let name = name_in(alloc, first)?;
            Ok(SyntaxLine::Pcom(name, is_immediate(rest)?))
        }
        [] => Err(Fault(Cause::Structure)),
    }
}

#[tactic(auto, unfolding(def_syntax::specs::SyntaxLines::item_with))]
fn var_item(alloc: Global, words: &[TokenText<'_>]) -> Result<SyntaxLine, Fault>
    ensures { Reads item_seen (item_with VarWord (lexemes_seen words.now)) result }
{
    match words {
        [first, rest @ ..] => {
            let name = name_in(alloc, first)?;
            Ok(SyntaxLine::Var(name, one_number(rest)?))
        }
        [] => Err(Fault(Cause::Structure)),
    }
}

#[tactic(auto, unfolding(def_syntax::specs::SyntaxLines::item_with))]
fn key_item(alloc: Global, words: &[TokenText<'_>]) -> Result<SyntaxLine, Fault>
    ensures { Reads item_seen (item_with KeyWord (lexemes_seen words.now)) result }
{
    match words {
        [first, rest @ ..] => {
            let name = name_in(alloc, first)?;
            Ok(SyntaxLine::Key(name, one_number(rest)?))
        }
        [] => Err(Fault(Cause::Structure)),
    }
}

#[tactic(auto, unfolding(def_syntax::specs::SyntaxLines::item_with))]
fn on_item(alloc: Global, words: &[TokenText<'_>]) -> Result<SyntaxLine, Fault>
    ensures { Reads item_seen (item_with OnWord (lexemes_seen words.now)) result }
{
    match words {
        [first, rest @ ..] => {
            let name = name_in(alloc, first)?;
            Ok(SyntaxLine::On(name, names_of(alloc, rest)?))
        }
        [] => Err(Fault(Cause::Structure)),
    }
}

#[tactic(auto, unfolding(def_syntax::specs::SyntaxLines::item_with))]
fn set_item(alloc: Global, words: &[TokenText<'_>]) -> Result<SyntaxLine, Fault>
    ensures { Reads item_seen (item_with SetWord (lexemes_seen words.now)) result }
{
    match words {
        [first, rest @ ..] => {
            let name = name_in(alloc, first)?;
            Ok(SyntaxLine::Set(name, raw_expr_of(alloc, rest)?))
        }
        [] => Err(Fault(Cause::Structure)),
    }
}

#[tactic(auto, unfolding(def_syntax::specs::SyntaxLines::item_with))]
fn out_item(alloc: Global, words: &[TokenText<'_>]) -> Result<SyntaxLine, Fault>
    ensures { Reads item_seen (item_with OutWord (lexemes_seen words.now)) result }
{
    match words {
        [first, rest @ ..] => {
            let name = name_in(alloc, first)?;
            Ok(SyntaxLine::Out(name, raw_operands_of(alloc, rest)?))
        }
        [] => Err(Fault(Cause::Structure)),
    }
}

#[tactic(auto, unfolding(def_syntax::specs::SyntaxLines::item_with))]
fn get_item(alloc: Global, words: &[TokenText<'_>]) -> Result<SyntaxLine, Fault>
    ensures { Reads item_seen (item_with GetWord (lexemes_seen words.now)) result }
{
    match words {
        [first, rest @ ..] => {
            let name = name_in(alloc, first)?;
            Ok(SyntaxLine::Get(name, one_name(alloc, rest)?))
        }
        [] => Err(Fault(Cause::Structure)),
    }
}

#[tactic(auto, unfolding(def_syntax::specs::SyntaxLines::item_with))]
fn put_item(alloc: Global, words: &[TokenText<'_>]) -> Result<SyntaxLine, Fault>
    ensures { Reads item_seen (item_with PutWord (lexemes_seen words.now)) result }
{
    match words {
        [first, rest @ ..] => {
            let name = name_in(alloc, first)?;
            Ok(SyntaxLine::Put(name, raw_expr_of(alloc, rest)?))
        }
        [] => Err(Fault(Cause::Structure)),
    }
}

#[tactic(auto, unfolding(def_syntax::specs::SyntaxLines::item_with))]
fn send_item(alloc: Global, words: &[TokenText<'_>]) -> Result<SyntaxLine, Fault>
    ensures { Reads item_seen (item_with SendWord (lexemes_seen words.now)) result }
{
    match words {
        [first, second, rest @ ..] => {
            let receiver = name_in(alloc, first)?;
            let handler = name_in(alloc, second)?;
            Ok(SyntaxLine::Send(receiver, handler, raw_operands_of(alloc, rest)?))
        }
        _ => Err(Fault(Cause::Structure)),
    }
}

/// What a line says that has one word alone.
#[tactic(auto, unfolding(def_syntax::specs::SyntaxLines::item_with))]
fn lone_item(item: SyntaxLine, words: &[TokenText<'_>]) -> Result<SyntaxLine, Fault>
    ensures { ReadsInPlace item_seen (nothing_behind (item_seen item) (lexemes_seen words.now)) result }
{
    match words {
        [] => Ok(item),
        _ => Err(Fault(Cause::Structure)),
    }
}

/// What a line says that begins with this word.
#[tactic(auto, unfolding(def_syntax::specs::SyntaxLines::item_with))]
fn item_with(alloc: Global, word: Fixed, words: &[TokenText<'_>]) -> Result<SyntaxLine, Fault>
    ensures { Reads item_seen (item_with (fixed_of word) (lexemes_seen words.now)) result }
{
    match word {
        Fixed::Xcom => xcom_item(alloc, words),
        Fixed::Tcom => tcom_item(alloc, words),
        Fixed::Pcom => pcom_item(alloc, words),
        Fixed::Immediate => Err(Fault(Cause::Structure)),
        Fixed::Var => var_item(alloc, words),
        Fixed::Key => key_item(alloc, words),
        Fixed::On => on_item(alloc, words),
        Fixed::Set => set_item(alloc, words),
        Fixed::Send => send_item(alloc, words),
        Fixed::Out => out_item(alloc, words),
        Fixed::If => choice_item(alloc, words),
        Fixed::Else => lone_item(SyntaxLine::Else, words),
        Fixed::Txn => txn_item(alloc, words),
        Fixed::Get => get_item(alloc, words),
        Fixed::Put => put_item(alloc, words),
        Fixed::Need => need_item(alloc, words),
        Fixed::End => lone_item(SyntaxLine::End, words),
    }
}

fn said(alloc: Global, words: &[TokenText<'_>]) -> Result<Option<SyntaxLine>, Fault>
    ensures ok { IfOk result (λ i. said (lexemes_seen words.now) ≡ Ok (option_map item_seen i)) }
    ensures err { IfErr result (λ e. Fails (said (lexemes_seen words.now)) e.0) }
{
    match words {
        [] => Ok(None),
        [TokenText::Fixed(word), rest @ ..] => Ok(Some(item_with(alloc, *word, rest)?)),
        _ => Err(Fault(Cause::Structure)),
    }
}

/// The cause for which a line without tokens is refused.
fn fault_of(refused: LineRefused) -> Fault
    ensures { FaultOf refused result }
{
    match refused {
        LineRefused::NotText => Fault(Cause::NotText),
        LineRefused::Word => Fault(Cause::Word),
        LineRefused::Memory => Fault(Cause::Memory),
    }
}

fn tokens_in(alloc: Global, line: &[u8]) -> Result<Tokens, Fault>
    ensures ok { IfOk result (λ ts. tokens_of line.now ≡ Ok (seen_tokens line.now ts)) }
    ensures inside { IfOk result (All (λ t. t.place + t.length ≤ length line.now)) }
    ensures err { IfErr result (λ e. Fails (tokens_of line.now) e.0) }
{
    match line_tokens(alloc, line) {
        Ok(tokens) => Ok(tokens),
        Err(refused) => Err(fault_of(refused)),
    }
}

/// What a line says: nothing where it has no token.
#[tactic(auto, unfolding(def_syntax::specs::SyntaxLines::line_item))]
pub fn line_item(alloc: Global, line: &[u8]) -> Result<Option<SyntaxLine>, Fault>
    ensures ok { IfOk result (λ i. line_item line.now ≡ Ok (option_map item_seen i)) }
    ensures err { IfErr result (λ e. Fails (line_item line.now) e.0) }
{
    let tokens = tokens_in(alloc, line)?;
    let words = lexemes_of(alloc, line, tokens.as_slice())?;
    said(alloc, words.as_slice())
}
