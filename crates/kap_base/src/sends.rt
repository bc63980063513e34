//! What may go to another thread.

ghost use Rattle.std.specs.Prelude.{◌≡◌};

/// The value itself. It asks that a value of this type may go to another thread, so a call shows that it may.
pub fn hand_on<T: Send>(value: T) -> T
    ensures { result ≡ value }
{
    value
}
