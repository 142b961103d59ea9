ghost use Rattle.std.specs.Prelude.{◌≡◌, ℤ, List, IsTrue};
ghost use Rattle.def_play.specs.Playing as playing;
ghost use Rattle.def_play.specs.Silent as silent;
ghost use Rattle.def_play.specs.Silent.{StaysSilent, StaySilent};

use ic_base::Stmt;

/// Whether all these statements are a `set`, or an `if` of such statements. They then change variables alone.
#[cycle(silent)]
pub fn are_silent(stmts: &[Stmt]) -> bool
    ensures same { result ≡ silent.are_silent stmts.now }
    ensures stays { IsTrue result → StaySilent stmts.now }
{
    for stmt in stmts {
        if !is_silent(stmt) {
            return false;
        }
    }
    true
}

#[cycle(silent)]
fn is_silent(stmt: &Stmt) -> bool
    ensures same { result ≡ silent.is_silent stmt.now }
    ensures stays { IsTrue result → (args now : List ℤ) → StaysSilent (playing.turn args now stmt.now) }
{
    match stmt {
        Stmt::Set(_, _) => true,
        Stmt::If(_, then, other) => are_silent(&then.stmts) && are_silent(&other.stmts),
        Stmt::Send(_, _, _) => false,
        Stmt::Out(_, _) => false,
        Stmt::Txn(_, _, _) => false,
        Stmt::Get(_, _) => false,
        Stmt::Put(_, _) => false,
        Stmt::Need(_, _) => false,
    }
}
