ghost use Rattle.std.specs.Prelude.{◌≡◌};
ghost use Rattle.ic_run.specs.Whys as whys;

use ic_base::{Fault, StartWhy, Which, WorldRefused};
use ic_plan::TextsRefused;
use ic_report::Why;

/// Why a run isn't begun, by its texts.
pub fn why_of_texts(why: TextsRefused) -> Why
    ensures { result ≡ whys.why_of_texts why }
{
    match why {
        TextsRefused::Scenario(line, cause) => Why::Fault(Fault::Scenario(line, cause)),
        TextsRefused::Schedule(line, cause) => Why::Fault(Fault::Schedule(line, cause)),
        TextsRefused::Policy(why) => Why::Fault(Fault::Policy(why)),
        TextsRefused::Read => Why::Fault(Fault::Read),
        TextsRefused::Memory => Why::Memory,
    }
}

/// Why a run doesn't open; `given` is the fingerprint of its scenario.
pub fn why_of_start(given: &[u8; 32], why: StartWhy) -> Why
    ensures { result ≡ whys.why_of_start given.now why }
{
    match why {
        StartWhy::NotBlank(c) => Why::Fault(Fault::NotBlank(c)),
        StartWhy::Bad(c, place) => Why::Fault(Fault::Bad(c, place)),
        StartWhy::Foreign(c, kept) => Why::Fault(Fault::Foreign(c, kept, *given)),
        StartWhy::Failed(c) => Why::Fault(Fault::Disk(c)),
        StartWhy::Memory => Why::Memory,
    }
}

/// Why a run goes no further.
pub(crate) fn why_of_world(given: &[u8; 32], why: WorldRefused) -> Why
    ensures { result ≡ whys.why_of_world given.now why }
{
    match why {
        WorldRefused::Limit(Which::Receipts) => Why::Fault(Fault::Receipts),
        WorldRefused::Limit(Which::Packets) => Why::Fault(Fault::Packets),
        WorldRefused::LogFull(c) => Why::Fault(Fault::LogFull(c)),
        WorldRefused::Bad(c, place) => Why::Fault(Fault::Bad(c, place)),
        WorldRefused::Failed(c) => Why::Fault(Fault::Disk(c)),
        WorldRefused::Foreign(c, kept) => Why::Fault(Fault::Foreign(c, kept, *given)),
        WorldRefused::Memory => Why::Memory,
    }
}
