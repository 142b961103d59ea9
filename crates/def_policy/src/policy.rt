/// A key of a policy (docs/FORMATS.md, "Policy").
#[derive(Clone, Copy, Debug, PartialEq, Eq)]
pub enum Setting {
    CheckpointEvery,
    ForceEvery,
    Report,
    Workers,
    Lane,
    Turns,
}
