use ic_base::{Answer, Fate, Trace};

/// From how many receipts on a world is renewed over its disks.
const RECEIPTS: u64 = 10_000;

/// From how many packets on.
const PACKETS: u64 = 500_000;

/// How many inputs and messages a world received, and how many packets it put out.
#[derive(Clone, Copy, Debug, PartialEq, Eq)]
pub(crate) struct Used {
    receipts: u64,
    packets: u64,
}

impl Used {
    /// Nothing of either.
    pub(crate) fn none() -> Used {
        Used {
            receipts: 0,
            packets: 0,
        }
    }

    /// With an event more.
    pub(crate) fn with(self, trace: &Trace) -> Used {
        let received = match trace.answer {
            Answer::Taken | Answer::Kept | Answer::Lost | Answer::Packet(_, _, Fate::Taken) => 1,
            _ => 0,
        };
        Used {
            receipts: self.receipts.saturating_add(received),
            packets: self.packets.saturating_add(trace.puts.len() as u64),
        }
    }

    /// Whether the limits of a run come near (docs/RULES.md, "Limits").
    pub(crate) fn is_near_a_limit(self) -> bool {
        self.receipts >= RECEIPTS || self.packets >= PACKETS
    }
}
