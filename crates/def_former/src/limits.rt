/// The bytes of a log of the former format.
pub const FORMER_LOG_BYTES: u64 = 67_108_864;
/// Where the first gate of a log of the former format stands: behind the letters and the fingerprint.
pub const FORMER_GATE: u64 = 40;
