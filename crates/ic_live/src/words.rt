ghost use Rattle.std.specs.Prelude.{IfSome, FitsSigned};
ghost use Rattle.std.specs.List.{AllByRecursion};
ghost use Rattle.std.specs.Int.{w64};
ghost use Rattle.law_live.specs.Bytes.{HasWords};

use ic_base::{Args, Packet, Request};

/// A value has the range of its type.
fn is_word(value: i64)
    ensures { FitsSigned w64 value }
{}

/// So have those of a message.
fn are_words(args: &Args)
    ensures { AllByRecursion (λ z. FitsSigned w64 z) args.now }
{
    for i in 0..args.len() {
        let Some(value) = args.get(i) else {
            unreachable!()
        };
        is_word(value);
    }
}

/// Each value that a packet carries has 64 bits with a sign.
pub(crate) fn has_words(p: &Option<Packet>)
    ensures { IfSome p.now HasWords }
{
    match p {
        Some(Packet::Data(msg)) => are_words(&msg.args),
        Some(
            Packet::Op {
                request: Request::Put(_, value),
                ..
            },
        ) => is_word(*value),
        Some(Packet::OpReply { value, .. }) => is_word(*value),
        _ => (),
    }
}
