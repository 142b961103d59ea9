ghost use Rattle.std.specs.Prelude.{◌≡◌, [], ◌∷◌, ◌++◌, OnOk, IfErr, false};
ghost use Rattle.def_syntax.specs.Blocks.{Finish};
ghost use Rattle.def_syntax.specs.Scope.{is_in, names, with_local, moved, frame};
ghost use Rattle.def_syntax.specs.Text.{look_up};
ghost use Rattle.ic_items.specs.Views.{move_seen, block_seen, locals_in};

use crate::{Block, BlockAction, Fault, NameTable, Stack};
use ic_base::{Cause, Name};
use std::alloc::Global;
use std::marker::Model;

/// An open block, with the locals that stand in it and their numbers.
#[derive(Debug, Drop)]
pub struct Frame {
    block: Block,
    locals: NameTable<u16>,
}

impl Model for Frame {
    ghost use Rattle.def_syntax.specs.Scope as grammar;
    ghost use Rattle.ic_items.specs.Views.{block_seen};

    ghost Value = { grammar.Frame };

    ghost view = { λ s. record { block = block_seen s.block; locals = s.locals } };
}

impl Frame {
    pub fn block(&self) -> Block
        ensures { block_seen result ≡ self.now.block }
    {
        self.block
    }

    /// The number of a local that stands in this block.
    pub fn local(&self, name: &Name) -> Option<u16>
        ensures { look_up name.now self.now.locals ≡ result }
    {
        self.locals.get(name).copied()
    }
}

/// One more local of the innermost block.
pub fn add_local(frames: &mut Stack<Frame>, name: Name, number: u16) -> Result<(), Fault>
    requires { is_in name (names (locals_in frames.old)) ≡ false }
    ensures ok { OnOk result (frames.new ≡ with_local name number frames.old) }
    ensures err { IfErr result (λ e. e.0 ≡ Cause.Memory) }
{
    if let Some(mut inner) = frames.pop() {
        inner.locals.add(name, number)?;
        frames.push(inner)?;
    }
    Ok(())
}

fn open_block(alloc: Global, frames: &mut Stack<Frame>, block: Block) -> Result<(), Fault>
    ensures ok { OnOk result (frames.new ≡ frame (block_seen block) ∷ frames.old) }
    ensures err { IfErr result (λ e. e.0 ≡ Cause.Memory) }
{
    let opened = Frame {
        block,
        locals: NameTable::new(alloc),
    };
    frames.push(opened)?;
    Ok(())
}

fn close_block(frames: &mut Stack<Frame>) -> Result<(), Fault>
    ensures ok { OnOk result (frames.new ≡ moved Finish frames.old) }
    ensures err { IfErr result (λ e. e.0 ≡ Cause.Memory) }
{
    let _ = frames.pop();
    Ok(())
}

/// The open blocks behind a line that moves so.
pub fn go(alloc: Global, frames: &mut Stack<Frame>, to: BlockAction) -> Result<(), Fault>
    ensures ok { OnOk result (frames.new ≡ moved (move_seen to) frames.old) }
    ensures err { IfErr result (λ e. e.0 ≡ Cause.Memory) }
{
    match to {
        BlockAction::Stay => Ok(()),
        BlockAction::Begin(block) => open_block(alloc, frames, block),
        BlockAction::Turn(block) => {
            let _ = frames.pop();
            open_block(alloc, frames, block)
        }
        BlockAction::Finish => close_block(frames),
    }
}
