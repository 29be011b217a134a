//! The closures that a builder is handed, in boxes of the caller's.
ghost use Rattle.std.specs.Prelude.{◌≡◌};

use std::alloc::AllocError;

/// What each started worker calls first, with its index.
#[derive(Drop)]
pub(crate) struct StartHandler {
    call: Box<dyn Fn(usize) + Send + Sync>,
    ghost ready: { (index : _) → pre call index },
}

impl StartHandler {
    /// The handler of a closure that may be called with any index.
    pub(crate) fn new(call: Box<dyn Fn(usize) + Send + Sync>) -> StartHandler
        requires { (index : _) → pre call index }
    {
        StartHandler { call }
    }

    /// Calls the closure with the index of a worker.
    pub(crate) fn call(&self, index: usize) {
        (self.call)(index)
    }
}

/// What names the workers by their indices.
#[derive(Drop)]
pub(crate) struct Names {
    call: Box<dyn FnMut(usize) -> Result<String, AllocError>>,
    ghost ready: { IsAlwaysCallable call },
}

impl Names {
    /// The names of a closure that may be called with any index.
    pub(crate) fn new(call: Box<dyn FnMut(usize) -> Result<String, AllocError>>) -> Names
        requires { IsAlwaysCallable call }
    {
        Names { call }
    }

    /// The name of the worker of an index.
    ///
    /// # Errors
    ///
    /// `AllocError` if an allocation fails.
    pub(crate) fn name_of(&mut self, index: usize) -> Result<String, AllocError> {
        (self.call)(index)
    }
}
