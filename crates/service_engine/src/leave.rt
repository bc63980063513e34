//! The leave to start threads, without what gave it.

use std::marker::PhantomData;
use std::thread::Threads;

/// The leave to start threads, as a runtime of this kind has it. It holds no runtime: so it may be shared
/// between threads whatever the runtime is, which a method of a trait can't ask of it.
#[derive(Drop)]
pub(crate) struct Leave<R> {
    of: PhantomData<R>,
}

impl<R: Threads> Threads for Leave<R> {}

impl<R: Threads> Leave<R> {
    /// That of a runtime.
    pub(crate) fn of(_rt: &R) -> Leave<R> {
        Leave { of: PhantomData }
    }
}
