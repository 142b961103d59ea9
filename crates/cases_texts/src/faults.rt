use case_words::Words;
use ic_base::{Cause, Fault, Items, PolicyRefused, Program, Word};
use ic_report::{fault_bytes, status_of};
use std::{io, str};

fn cause(words: &mut Words<'_>) -> Cause {
    match words.word() {
        "Limit" => Cause::Limit,
        "NotText" => Cause::NotText,
        "Word" => Cause::Word,
        "Structure" => Cause::Structure,
        "Twice" => Cause::Twice,
        "Unknown" => Cause::Unknown,
        _ => Cause::Arity,
    }
}

fn policy(words: &mut Words<'_>) -> PolicyRefused {
    match words.word() {
        "NotToml" => PolicyRefused::NotToml,
        "Unknown" => PolicyRefused::Unknown,
        "Kind" => PolicyRefused::Kind,
        _ => PolicyRefused::Range,
    }
}

/// The fault that the words are.
fn fault(words: &mut Words<'_>) -> Fault {
    match words.word() {
        "scenario" => Fault::Scenario(words.medium(), cause(words)),
        "schedule" => Fault::Schedule(words.medium(), cause(words)),
        "policy" => Fault::Policy(policy(words)),
        "foreign" => {
            let com = words.com();
            Fault::Foreign(com, [words.byte(); 32], [words.byte(); 32])
        }
        "bad" => Fault::Bad(words.com(), words.number()),
        "illegal" => Fault::Illegal(words.number()),
        "receipts" => Fault::Receipts,
        "packets" => Fault::Packets,
        "full" => Fault::LogFull(words.com()),
        "read" => Fault::Read,
        "disk" => Fault::Disk(words.com()),
        "not_blank" => Fault::NotBlank(words.com()),
        _ => Fault::Usage,
    }
}

/// Writes the last line of a call: the program that was called, and the fault.
pub fn answer(rt: &HostRuntime, program: &Program, words: &mut Words<'_>) -> io::Result<()> {
    let tool: Word = Items::from_vec(words.word().as_bytes().to_vec(rt.alloc())?);
    let fault = fault(words);
    let made = fault_bytes(rt.alloc(), &tool, Some(program), &fault)?;
    println!(rt;
        "{} {:?}",
        status_of(&fault),
        str::from_utf8(made.as_slice())
    )
}
