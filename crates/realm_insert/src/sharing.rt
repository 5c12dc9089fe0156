//! That an engine can be used by many threads.
use crate::engine::Engine;

/// Threads may share an engine by reference, and one may hand it to another. The call does nothing: that it
/// compiles says so.
pub fn may_be_shared(engine: &Engine) {
    is_shared(engine)
}

fn is_shared<T: Send + Sync>(_: &T) {}
