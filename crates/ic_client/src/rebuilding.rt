ghost use Rattle.std.specs.Prelude.{◌≡◌, ◌≤◌, fold, length, IfOk, OnOk};
ghost use Rattle.ic_base.specs.declared.limits.TheConstants.{COMPONENTS};
ghost use Rattle.def_client.specs.Rebuilding.{front_of, outputs_at};
ghost use Rattle.def_plain.specs.Plain.{counted};
ghost use Rattle.def_state.specs.Hist.{number_outputs};
ghost use Rattle.ic_client.specs.Rebuilding.{saw_first_record};
ghost use Rattle.ic_client.specs.Seeing.{TakenAlike};

use crate::Front;
use def_plain::{PlainCom, PlainWorld};
use ic_base::{ComId, Out, Output, Record, Records};
use std::alloc::{AllocError, Global};

/// The outputs of a Pcom; no other component has any.
fn outs_of(plain: &PlainWorld, c: ComId) -> &[Out]
    ensures { number_outputs 1 result.now ≡ outputs_at plain.now c }
{
    match plain.as_slice().get(usize::from(c.0)) {
        Some(PlainCom::Pcom(pcom)) => pcom.outs.as_slice(),
        _ => &[],
    }
}

/// The output of this number, counted from 1.
fn output_at(outs: &[Out], m: u64) -> Option<Output>
    ensures { result ≡ counted (number_outputs 1 outs.now) m }
{
    if m == 0 {
        return None;
    }
    match outs.get((m - 1) as usize) {
        Some(out) => Some(Output {
            m,
            to: out.to,
            args: out.args,
        }),
        None => None,
    }
}

impl Front {
    /// What a record tells is seen: an input, or that an output was shown.
    fn see_record(&mut self, c: ComId, outs: &[Out], told: &Record) -> Result<(), AllocError>
        ensures { OnOk result (self.new.taken ≡ saw_first_record c (number_outputs 1 outs.now) self.old.taken told.now) }
    {
        match told {
            Record::Input { handler, args, .. } => self.take_first(c, *handler, *args),
            Record::Shown { m } => {
                if let Some(output) = output_at(outs, *m) {
                    self.show(c, &output);
                }
                Ok(())
            }
            _ => Ok(()),
        }
    }

    /// What a log tells is seen.
    fn see_log(&mut self, c: ComId, outs: &[Out], log: &[Record]) -> Result<(), AllocError>
        ensures { OnOk result (self.new.taken ≡ fold (saw_first_record c (number_outputs 1 outs.now)) self.old.taken log.now) }
    {
        for told in log {
            self.see_record(c, outs, told)?;
        }
        Ok(())
    }

    /// The requests that logs tell of, each with its reply: the first output of the crash-free world with its numbers that the log
    /// tells as shown behind it.
    pub fn of_logs(alloc: Global, plain: &PlainWorld, logs: &[Records]) -> Result<Front, AllocError>
        requires few { length logs.now ≤ COMPONENTS }
        ensures alike { IfOk result (λ f. TakenAlike f.taken (front_of plain.now logs.now)) }
    {
        let mut front = Front::new(alloc);
        for (i, log) in logs.iter().enumerate() {
            let c = ComId(i as u8);
            front.see_log(c, outs_of(plain, c), log.as_slice())?;
        }
        Ok(front)
    }
}
