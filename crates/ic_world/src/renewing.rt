use crate::World;
use ic_disk::{Disk, TornDisk};
use ic_network::{Network, Shown};
use std::alloc::{AllocError, Global};

impl<D: Disk> World<TornDisk<D>> {
    ghost use Rattle.std.specs.Prelude.{◌≡◌, false, OnOk};
    ghost use Rattle.ic_world.specs.Opening.{disks_under};
    ghost use Rattle.ic_world.specs.Renewing.{Renews};
    ghost use Rattle.ic_world.specs.Views.{components_of, is_over};

    /// All components down over their disks, with nothing put out, received or played: the world that would be found over these disks. No
    /// device call is made. The bytes of their records are dropped, so `logs` answers as where memory runs out. Where memory is wanting the
    /// disks are the same, and nothing else is said of it.
    pub fn renew(&mut self, alloc: Global) -> Result<(), AllocError>
        requires going { is_over self.old ≡ false }
        ensures step { OnOk result (Renews D.Disk self.old self.new) }
        ensures disks { disks_under (components_of self.new) ≡ disks_under (components_of self.old) }
    {
        let network = Network::new(alloc)?;
        self.over = true;
        for i in 0..self.components.len() {
            let component = &mut self.components[i];
            component.drop_bytes();
            let Ok(_) = component.crashes(alloc) else {
                return Err(AllocError);
            };
        }
        self.network = network;
        self.shown = Shown::new(alloc);
        self.received = 0;
        self.played = 0;
        self.over = false;
        Ok(())
    }
}
