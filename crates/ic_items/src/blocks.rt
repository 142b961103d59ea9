ghost use Rattle.std.specs.Prelude.{◌≡◌, option_map};
ghost use Rattle.def_syntax.specs.Blocks.{in_block, outside, in_tcom, in_pcom, statement, part_statement, statement_in, or_end, or_else_line, first_of_part};
ghost use Rattle.ic_items.specs.Views.{item_seen, block_seen, move_seen};

use crate::SyntaxLine;

/// An open block. Those of an `if` say whether they stand in the part of a `txn`; such a part begins with a `get` or a
/// `put`.
#[derive(Clone, Copy, Debug, PartialEq, Eq)]
pub enum Block {
    Tcom,
    Pcom,
    Handler,
    /// The part of a `txn`, in front of its first statement.
    PartStart,
    /// The part of a `txn`, behind its first statement.
    Part,
    /// What stands behind the `else` of a `txn`.
    OtherPart,
    Then(bool),
    Else(bool),
}

/// What a line does to the block in which it stands.
#[derive(Clone, Copy, Debug, PartialEq, Eq)]
pub enum BlockAction {
    /// The block goes on.
    Stay,
    /// This block begins inside it.
    Begin(Block),
    /// It ends, and this block goes on in its place.
    Turn(Block),
    Finish,
}

/// What a line outside all components does, where it may stand there.
pub fn outside(item: &SyntaxLine) -> Option<BlockAction>
    ensures { outside (item_seen item.now) ≡ option_map move_seen result }
{
    match item {
        SyntaxLine::Xcom(_) => Some(BlockAction::Stay),
        SyntaxLine::Tcom(_) => Some(BlockAction::Begin(Block::Tcom)),
        SyntaxLine::Pcom(_, _) => Some(BlockAction::Begin(Block::Pcom)),
        _ => None,
    }
}

fn in_tcom(item: &SyntaxLine) -> Option<BlockAction>
    ensures { in_tcom (item_seen item.now) ≡ option_map move_seen result }
{
    match item {
        SyntaxLine::Key(_, _) => Some(BlockAction::Stay),
        SyntaxLine::End => Some(BlockAction::Finish),
        _ => None,
    }
}

fn in_pcom(item: &SyntaxLine) -> Option<BlockAction>
    ensures { in_pcom (item_seen item.now) ≡ option_map move_seen result }
{
    match item {
        SyntaxLine::Var(_, _) => Some(BlockAction::Stay),
        SyntaxLine::On(_, _) => Some(BlockAction::Begin(Block::Handler)),
        SyntaxLine::End => Some(BlockAction::Finish),
        _ => None,
    }
}

fn statement(item: &SyntaxLine) -> Option<BlockAction>
    ensures { statement (item_seen item.now) ≡ option_map move_seen result }
{
    match item {
        SyntaxLine::Set(_, _) | SyntaxLine::Send(_, _, _) | SyntaxLine::Out(_, _) => Some(
            BlockAction::Stay,
        ),
        SyntaxLine::If(_) => Some(BlockAction::Begin(Block::Then(false))),
        SyntaxLine::Txn(_) => Some(BlockAction::Begin(Block::PartStart)),
        _ => None,
    }
}

fn part_statement(item: &SyntaxLine) -> Option<BlockAction>
    ensures { part_statement (item_seen item.now) ≡ option_map move_seen result }
{
    match item {
        SyntaxLine::Set(_, _)
        | SyntaxLine::Get(_, _)
        | SyntaxLine::Put(_, _)
        | SyntaxLine::Need(_) => Some(BlockAction::Stay),
        SyntaxLine::If(_) => Some(BlockAction::Begin(Block::Then(true))),
        _ => None,
    }
}

fn statement_in(part: bool, item: &SyntaxLine) -> Option<BlockAction>
    ensures { statement_in part (item_seen item.now) ≡ option_map move_seen result }
{
    if part {
        part_statement(item)
    } else {
        statement(item)
    }
}

fn statement_or_end(part: bool, item: &SyntaxLine) -> Option<BlockAction>
    ensures { or_end (statement_in part) (item_seen item.now) ≡ option_map move_seen result }
{
    match item {
        SyntaxLine::End => Some(BlockAction::Finish),
        _ => statement_in(part, item),
    }
}

fn in_then(part: bool, item: &SyntaxLine) -> Option<BlockAction>
    ensures { or_else_line (block_seen (Block.Else part)) (or_end (statement_in part)) (item_seen item.now) ≡ option_map move_seen result }
{
    match item {
        SyntaxLine::Else => Some(BlockAction::Turn(Block::Else(part))),
        _ => statement_or_end(part, item),
    }
}

fn first_of_part(item: &SyntaxLine) -> Option<BlockAction>
    ensures { first_of_part (item_seen item.now) ≡ option_map move_seen result }
{
    match item {
        SyntaxLine::Get(_, _) | SyntaxLine::Put(_, _) => Some(BlockAction::Turn(Block::Part)),
        _ => None,
    }
}

fn in_part(item: &SyntaxLine) -> Option<BlockAction>
    ensures { or_else_line (block_seen Block.OtherPart) part_statement (item_seen item.now) ≡ option_map move_seen result }
{
    match item {
        SyntaxLine::Else => Some(BlockAction::Turn(Block::OtherPart)),
        _ => part_statement(item),
    }
}

/// What a line does in a block, where it may stand there.
#[tactic(auto, unfolding(def_syntax::specs::Blocks::in_block))]
pub fn in_block(block: Block, item: &SyntaxLine) -> Option<BlockAction>
    ensures { in_block (block_seen block) (item_seen item.now) ≡ option_map move_seen result }
{
    match block {
        Block::Tcom => in_tcom(item),
        Block::Pcom => in_pcom(item),
        Block::Handler | Block::OtherPart => statement_or_end(false, item),
        Block::Then(part) => in_then(part, item),
        Block::Else(part) => statement_or_end(part, item),
        Block::PartStart => first_of_part(item),
        Block::Part => in_part(item),
    }
}
