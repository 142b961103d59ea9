use ic_base::ComId;

/// What a worker calls once it has the lock of a component, before its turn.
pub trait Gate {
    fn enter(&self, com: ComId);
}

/// A gate that does nothing.
pub struct OpenGate;

impl Gate for OpenGate {
    fn enter(&self, _com: ComId) {}
}
