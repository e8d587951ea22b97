/// Is told of each call once, while the call holds its locks. It returns and holds nothing; a test
/// uses one to see which calls are inside at the same time.
pub trait Gate {
    fn inside(&self, task: u32, call: u32);
}

/// Returns at once.
#[derive(Clone, Copy, Debug)]
pub struct FreeGate;

impl Gate for FreeGate {
    fn inside(&self, _task: u32, _call: u32) {}
}
