//! That the state of a store is sound: each part of the engine says so of itself where it is looked at.
ghost use Rattle.std.specs.Prelude.{◌≡◌, false};
ghost use Rattle.realm_store.specs.Sound.{IsSound};

use realm_insert::Engine;

/// The state is sound: a law of what the engine keeps. Nothing is done but to look at a chain.
pub(crate) fn is_sound(engine: &Engine)
    requires ready { engine.now.spent ≡ false }
    ensures { IsSound engine.now.state }
{
    engine.is_valid();
    let _ = engine.drawing().chain(0);
}
