/// What a job passes as it begins. It promises nothing, and lets a test see which jobs run beside each other.
pub trait Gate: Sync {
    fn enter(&self, index: u32);
}

/// A gate that does nothing.
pub struct OpenGate;

impl Drop for OpenGate {
    fn drop(self) {
        let OpenGate = self;
    }
}

impl Gate for OpenGate {
    fn enter(&self, _index: u32) {}
}
