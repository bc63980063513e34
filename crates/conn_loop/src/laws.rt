//! The law of many links: whatever turns come, each link's bytes are those of a connection of its own.

ghost use Rattle.std.specs.Prelude.{◌≡◌, ℕ, List, Option, All};
ghost use Rattle.kap_http.specs.Calls.{Call};
ghost use Rattle.conn_loop.specs.Histories.{HasCome, HasComeToEnd, Origin};
ghost use Rattle.conn_loop.specs.Links.{telling};
ghost use Rattle.conn_loop.specs.Loops.{new_link};
ghost use Rattle.conn_loop.specs.Turns.{Turned};
ghost use Rattle.conn_loop.specs.declared.finished.Finished.{Finished};
ghost use Rattle.conn_loop.specs.declared.slot.Slot.{Slot};

use kap_io::TryLink;

/// A link that is added has come to nothing yet since then. A turn keeps of all open links what they have come
/// to since they were added, each by its own bytes and by the calls of its own number; and those that end have
/// come to their ends so. So this holds over every list of turns, whatever numbers come.
pub fn many_links<L: TryLink>()
    ensures added { (origins : ℕ → Origin) (served : Option (List Call)) (number : ℕ) (link : L) →
        origins number ≡ record { left = L.left link; served = served; written = L.written link } →
        HasCome (telling L.left L.written L.read_faults L.write_faults L.waits) origins served
        (new_link number link) }
    ensures turned { (origins : ℕ → Origin) (ready : List ℕ) (served now_served : Option (List Call))
        (old still : List (Slot L)) (finished : List (Finished L)) →
        Turned (telling L.left L.written L.read_faults L.write_faults L.waits) ready served now_served
        old still finished →
        All (HasCome (telling L.left L.written L.read_faults L.write_faults L.waits) origins served) old →
        All (HasCome (telling L.left L.written L.read_faults L.write_faults L.waits) origins now_served)
        still ×
        All (HasComeToEnd (telling L.left L.written L.read_faults L.write_faults L.waits) origins
        now_served) finished }
{}
