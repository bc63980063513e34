//! Barriers inside a load.

ghost use Rattle.std.specs.Prelude.{◌≡◌};
ghost use Rattle.flow_life.specs.Loads.{has_barrier, has_inner};

use kap_base::Msg;

/// Whether a barrier stands among messages.
fn has_barrier(msgs: &[Msg]) -> bool
    ensures { result ≡ has_barrier msgs.now }
{
    let mut rest = msgs;
    'passing: while let Some((first, others)) = rest.split_first() {
        match first {
            Msg::Barrier(_) => return true,
            Msg::Item(_) => rest = others,
        }
    }
    false
}

/// Whether one stands among them before the last one.
pub(crate) fn has_inner(msgs: &[Msg]) -> bool
    ensures { result ≡ has_inner msgs.now }
{
    let mut rest = msgs;
    'passing: while let Some((first, others)) = rest.split_first() {
        match first {
            Msg::Barrier(_) => return has_barrier(others),
            Msg::Item(_) => rest = others,
        }
    }
    false
}
