ghost use Rattle.std.specs.Prelude.{◌≡◌, ◌≢◌, ◌⊎◌, ◌+◌, ◌-◌, ◌<◌, ◌≤◌, ◌^◌, ◌++◌, ◌&&◌, min, max, ℕ, List, [], ◌∷◌, length, take, drop, true, false, is_ok, Some, None, Ok, Err, IfOk, OnOk, OnErr};
ghost use Rattle.def_log.specs.Torn.{all_written, torn};
ghost use Rattle.def_log.specs.Images.{Elapses};
ghost use Rattle.ic_disk.specs.Causes.{IsCaused, Rose};
ghost use Rattle.ic_disk.specs.Disk.{Keeps};
ghost use Rattle.ic_disk.specs.Stops.{Script, was_reached};
ghost use Rattle.ic_disk.specs.TornDisks.{need, is_none_held, TornBy, is_reached, shown, is_due, after_begin, reached_script, stop_image};
ghost use Rattle.ic_disk.specs.Armings.{set_by};
ghost use Rattle.std.proofs.Common.{inl, inr, refl};
ghost use Rattle.ic_disk.specs.TornLaws.{may_none, settled_leaves};
ghost use Rattle.ic_disk.specs.declared.disk.DiskError.TheVariants.{Failed, Stopped, Memory};

use crate::call_count::CallCount;
use crate::flush::flush_all;
use crate::read_over::read_over;
use crate::stop_image::{Armed, write_image};
use crate::write_list::WriteList;
use crate::{Disk, DiskError};
use ic_base::Stop;
use std::alloc::Global;
use std::marker::Model;

/// A disk over another one, which holds its writes until the next sync, and stops where it was told to (docs/FORMATS.md,
/// "What a stop leaves").
#[derive(Drop)]
pub struct TornDisk<D: Disk> {
    inner: D,
    held: WriteList,
    armed: Option<Armed>,
    stopped: bool,
    calls: CallCount,
}

impl<D: Disk> Model for TornDisk<D> {
    ghost use Rattle.std.specs.Prelude.{◌≡◌, ◌≤◌, true, []};
    ghost use Rattle.ic_disk.specs.TornDisks.{Torn, need, AreReached, AreShort};
    ghost use Rattle.ic_disk.specs.Armings.{script_of};

    ghost Value = { Torn D };

    ghost view = { λ t. record { inner = t.inner; held = t.held.writes; room = t.held.spare; script = script_of t.armed; stopped = t.stopped; made = t.calls.made } };

    ghost invariant = { λ t. (D.tells t.inner → AreReached (D.seen t.inner) t.held.writes) × AreShort t.held.writes × (need t.held.writes ≤ D.spare t.inner) × (t.stopped ≡ true → t.held.writes ≡ []) };
}

impl<D: Disk> TornDisk<D> {
    /// The disk, with no stop set and nothing held.
    pub fn new(alloc: Global, inner: D) -> TornDisk<D>
        ensures inner { result.inner ≡ inner }
        ensures held { result.held ≡ [] }
        ensures script { result.script ≡ None }
        ensures stopped { result.stopped ≡ false }
        ensures made { result.made ≡ 0 }
    {
        TornDisk {
            inner,
            held: WriteList::new(alloc),
            armed: None,
            stopped: false,
            calls: CallCount::new(),
        }
    }

    /// Sets a stop. From here on device calls are counted from 1; a stop at call 0 is never reached.
    pub fn arm(&mut self, stop: Stop)
        ensures { self.new ≡ record self.old { script = Some (set_by stop) } }
    {
        self.armed = Some(Armed {
            left: stop.call,
            keep: stop.keep,
            fill: stop.fill,
            reached: false,
        });
    }

    /// Takes the stop away, and tells whether it was reached.
    pub fn disarm(&mut self) -> bool
        ensures reached { result ≡ is_reached self.old.script }
        ensures after { self.new ≡ record self.old { script = None } }
    {
        let reached = self.armed.is_some_and(|armed| armed.reached);
        self.armed = None;
        reached
    }

    /// Whether it stands stopped by its stop. Nothing is held then.
    pub fn is_stopped(&self) -> bool
        ensures stopped { result ≡ self.now.stopped }
        ensures lost { self.now.stopped ≡ true → self.now.held ≡ [] }
    {
        self.stopped
    }

    /// Lets the disk work again. The writes that waited for a sync are lost.
    pub fn power_on(&mut self)
        ensures after { self.new ≡ record self.old { stopped = false; held = []; room = self.new.room } }
        ensures room { self.old.room ≤ self.new.room }
    {
        self.stopped = false;
        self.held.clear();
    }

    /// The disk below. What is held is lost.
    pub fn into_inner(self) -> D
        ensures { result ≡ self.inner }
    {
        self.inner
    }

    // Counts a device call. It is refused where the disk stands stopped, and else tells whether it reaches the stop.
    fn begins(&mut self) -> Result<bool, DiskError>
        ensures stopped { self.old.stopped ≡ true → result ≡ Err Stopped }
        ensures due { self.old.stopped ≡ false → result ≡ Ok (is_due self.old.script) }
        ensures after { self.new ≡ record self.old { made = self.old.made + 1; script = after_begin self.old.stopped self.old.script } }
    {
        self.calls = CallCount::after(&self.calls);
        if self.stopped {
            return Err(DiskError::Stopped);
        }
        match self.armed {
            Some(armed) if !armed.reached => {
                if armed.left == 1 {
                    return Ok(true);
                }
                self.armed = Some(Armed {
                    left: armed.left.saturating_sub(1),
                    ..armed
                });
                Ok(false)
            }
            _ => Ok(false),
        }
    }

    // The stop is reached: the first of the bytes that wait arrive, and the disk stands stopped. Where the disk below stands
    // stopped itself, it isn't reached.
    fn tear(&mut self) -> DiskError
        requires due { is_due self.old.script ≡ true }
        requires running { self.old.stopped ≡ false }
        ensures rest { self.new ≡ record self.old { inner = self.new.inner; held = []; room = self.new.room; script = self.new.script; stopped = self.new.stopped } }
        ensures disk { Keeps D.Disk self.old.inner self.new.inner }
        ensures room { self.old.room ≤ self.new.room }
        ensures spare { D.spare self.old.inner ≤ D.spare self.new.inner + need self.old.held }
        ensures crash { D.keeps self.old.inner → Elapses D.moment D.left_since D.may_leave
            (TornBy self.old.held (D.may_leave self.old.inner)) self.old.inner self.new.inner }
        ensures unmoved { D.tells self.old.inner → D.settled self.old.inner ≡ true → self.old.held ≡ [] → D.seen self.new.inner ≡ D.seen self.old.inner }
        ensures reached { self.new.stopped ≡ true → self.new.script ≡ reached_script self.old.script }
        ensures not_reached { self.new.stopped ≡ false → (self.new.script ≡ self.old.script) × (result ≡ Stopped) }
        ensures image { D.tells self.old.inner → self.new.stopped ≡ true → result ≡ Stopped →
            D.seen self.new.inner ≡ stop_image self.old.script (D.seen self.old.inner) self.old.held }
        ensures below { D.calls self.new.inner ≤ D.calls self.old.inner + length self.old.held + 1 }
        ensures later { D.faults self.old.inner ≤ D.faults self.new.inner }
        ensures failed { result ≡ Failed → Rose (D.faults self.old.inner) (D.faults self.new.inner) }
        ensures halted { result ≡ Stopped → (self.new.stopped ≡ true) ⊎ D.stopped self.new.inner }
        ensures no_memory { result ≢ Memory }
    {
        let Some(armed) = self.armed else {
            return DiskError::Stopped;
        };
        let answer = write_image(&mut self.inner, &mut self.held, armed);
        self.held.clear();
        if answer == Err(DiskError::Stopped) {
            return DiskError::Stopped;
        }
        self.stopped = true;
        self.armed = Some(Armed {
            reached: true,
            ..armed
        });
        match answer {
            Ok(()) => DiskError::Stopped,
            Err(error) => error,
        }
    }
}

impl<D: Disk> Disk for TornDisk<D> {
    ghost tells = { λ t. D.tells t.inner };

    ghost seen = { λ t. all_written (D.seen t.inner) t.held };

    ghost keeps = { λ t. D.keeps t.inner };

    ghost may_leave = { λ t image. (image ≡ all_written (D.seen t.inner) t.held) ⊎ TornBy t.held (D.may_leave t.inner) image };

    ghost moment = { λ t. D.moment t.inner };

    ghost left_since = { λ t. D.left_since t.inner };

    ghost settled = { λ t. is_none_held t.held && D.settled t.inner };

    ghost faults = { λ t. D.faults t.inner };

    ghost spare = { λ t. min t.room (D.spare t.inner - need t.held) };

    ghost stopped = { λ t. (t.stopped ≡ true) ⊎ D.stopped t.inner };

    ghost calls = { λ t. t.made };

    ghost calls_within = { λ t. D.calls t.inner };

    ghost stop = { λ t. record { script = shown t.stopped t.script; synced = D.seen t.inner; waiting = t.held } };

    ghost keeping_tells = { λ t keeps. D.keeping_tells t.inner keeps };

    ghost read_may_stay = { λ t keeps. inl refl };

    ghost counts_now = { λ t time image keeps settled earlier left.
        settled_leaves (D.left_since t.inner time) (D.may_leave t.inner) (D.settled t.inner) t.held (D.seen t.inner) image settled
        (λ below found may. D.counts_now t.inner time found keeps below earlier may) (D.read_may_stay t.inner keeps) left };

    ghost only_now = { λ t image keeps left. inr (image, D.only_now t.inner image keeps left, may_none t.held image) };

    fn fault_count(&self) -> u64 {
        self.inner.fault_count()
    }

    fn reserve(&mut self, alloc: Global, bytes: usize) -> Result<(), DiskError> {
        let Some(room) = self.held.need().and_then(|need| need.checked_add(bytes)) else {
            return Err(DiskError::Memory);
        };
        self.inner.reserve(alloc, room)?;
        self.held.reserve(bytes)?;
        Ok(())
    }

    fn length(&mut self) -> Result<u64, DiskError> {
        if self.begins()? {
            return Err(self.tear());
        }
        match self.inner.length() {
            Ok(length) => Ok(length.max(self.held.end())),
            Err(error) => {
                self.held.clear();
                Err(error)
            }
        }
    }

    fn read_at(&mut self, alloc: Global, at: u64, count: usize) -> Result<Vec<u8>, DiskError> {
        if self.begins()? {
            return Err(self.tear());
        }
        match read_over(alloc, &mut self.inner, &self.held, at, count) {
            Ok(bytes) => Ok(bytes),
            Err(error) => {
                if error == DiskError::Memory {
                    return Err(error);
                }
                self.held.clear();
                Err(error)
            }
        }
    }

    fn write_at(&mut self, at: u64, bytes: &[u8]) -> Result<(), DiskError> {
        let reached = self.begins()?;
        self.held.add(at as usize, bytes);
        if reached {
            return Err(self.tear());
        }
        Ok(())
    }

    fn sync(&mut self) -> Result<(), DiskError> {
        if self.begins()? {
            return Err(self.tear());
        }
        let answer = flush_all(&mut self.inner, &self.held);
        self.held.clear();
        answer
    }
}
