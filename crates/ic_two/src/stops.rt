use crate::{Book, Chief, RecordLog2};
use ic_base::Stop;
use ic_disk::{Disk, TornDisk};

impl<D: Disk> RecordLog2<TornDisk<D>> {
    ghost use Rattle.std.specs.Prelude.{◌≡◌, Some, None};
    ghost use Rattle.ic_disk.specs.TornDisks.{is_reached};
    ghost use Rattle.ic_disk.specs.Armings.{set_by};
    ghost use Rattle.ic_two.specs.Views.{disk_of, IsSame};

    /// Sets a stop of the log's disk. Its device calls are counted from 1 from here on.
    pub(crate) fn arm(&mut self, stop: Stop)
        ensures disk { disk_of self.new ≡ record (disk_of self.old) { script = Some (set_by stop) } }
        ensures same { IsSame self.old self.new }
    {
        self.log.arm(stop);
    }

    /// Takes the stop of the log's disk away, and tells whether it was reached.
    pub(crate) fn disarm(&mut self) -> bool
        ensures reached { result ≡ is_reached (disk_of self.old).script }
        ensures disk { disk_of self.new ≡ record (disk_of self.old) { script = None } }
        ensures same { IsSame self.old self.new }
    {
        self.log.disarm()
    }
}

impl<D: Disk> Book<TornDisk<D>> {
    ghost use Rattle.std.specs.Prelude.{◌≡◌, Some, None};
    ghost use Rattle.ic_disk.specs.TornDisks.{is_reached};
    ghost use Rattle.ic_disk.specs.Armings.{set_by};
    ghost use Rattle.ic_two.specs.Books.{disk_of, IsSame};

    /// Sets a stop of the book's disk. Its device calls are counted from 1 from here on.
    pub fn arm(&mut self, stop: Stop)
        ensures disk { disk_of self.new ≡ record (disk_of self.old) { script = Some (set_by stop) } }
        ensures same { IsSame self.old self.new }
    {
        self.log.arm(stop);
    }

    /// Takes the stop of the book's disk away, and tells whether it was reached.
    pub fn disarm(&mut self) -> bool
        ensures reached { result ≡ is_reached (disk_of self.old).script }
        ensures disk { disk_of self.new ≡ record (disk_of self.old) { script = None } }
        ensures same { IsSame self.old self.new }
    {
        self.log.disarm()
    }
}

impl<D: Disk> Chief<TornDisk<D>> {
    ghost use Rattle.std.specs.Prelude.{◌≡◌, Some, None};
    ghost use Rattle.ic_disk.specs.TornDisks.{is_reached};
    ghost use Rattle.ic_disk.specs.Armings.{set_by};
    ghost use Rattle.ic_two.specs.ChiefLogs.{disk_of, IsSame};

    /// Sets a stop of the chief's disk. Its device calls are counted from 1 from here on.
    pub fn arm(&mut self, stop: Stop)
        ensures disk { disk_of self.new ≡ record (disk_of self.old) { script = Some (set_by stop) } }
        ensures same { IsSame self.old self.new }
    {
        self.log.arm(stop);
    }

    /// Takes the stop of the chief's disk away, and tells whether it was reached.
    pub fn disarm(&mut self) -> bool
        ensures reached { result ≡ is_reached (disk_of self.old).script }
        ensures disk { disk_of self.new ≡ record (disk_of self.old) { script = None } }
        ensures same { IsSame self.old self.new }
    {
        self.log.disarm()
    }
}
