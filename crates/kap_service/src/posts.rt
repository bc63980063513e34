//! Posts in threads, each of which serves at a door of its own.

ghost use Rattle.std.specs.Prelude.{◌≡◌, ◌-◌, ◌<◌, ◌^◌, ℕ, false, true, length, min, slice_index_or};
ghost use Rattle.std.specs.List.{sum_by};
ghost use Rattle.kap_base.specs.Words.{HasRisen};
ghost use Rattle.kap_service.specs.Posts.{CameAll, CameSince, IsClosed, links_at};

use crate::desk::Desk;
use crate::engine::Engine;
use crate::seat::Seat;
use crate::shared::Lock;
use crate::state::Since;
use kap_io::{Clock, Door, Failed, Link};
use link_serve::serve_link;
use std::alloc::Global;
use std::sync::Wait;
use std::sync::ledger::Ledger;
use std::thread;
use std::thread::Threads;
use topic_board::{Naming, Shown};

/// A post: a seat, and the door at which it serves. Behind `serve` it tells how many links came there, and
/// whether the door failed.
#[derive(Drop)]
pub struct Post<B: Drop, J: Naming, O: Drop, T: Shown<J, O>, L1: Ledger, L2: Ledger> {
    /// The seat.
    pub seat: Seat<J, O, T, L1, L2>,
    /// The door.
    pub door: B,
    /// How many links came. The count stands still at the end of its type.
    pub links: u64,
    /// Whether the door failed.
    pub failed: bool,
}

/// What came of all posts.
#[derive(Clone, Copy, Debug, PartialEq, Eq)]
pub struct Served {
    /// How many links came. The count stands still at the end of its type.
    pub links: u64,
    /// Whether a door failed.
    pub door_failed: bool,
}

/// Serves one link from a seat.
fn serve_one<
    L: Link + Drop,
    E: Engine,
    J: Naming,
    O: Drop,
    T: Shown<J, O>,
    R: Wait + Drop,
    L1: Ledger,
    L2: Since,
>(
    rt: &impl Wait,
    alloc: Global,
    lock: &Lock<E, J, O, T, R, L1, L2>,
    seat: &mut Seat<J, O, T, L1, L2>,
    clock: &impl Clock,
    link: L,
) {
    let mut link = link;
    let mut desk = Desk {
        rt,
        lock,
        seat,
        clock,
    };
    let _ = serve_link(alloc, &mut link, &mut desk);
}

/// Serves at the door of one post until no more links come there, or it fails.
fn work<
    L: Link + Drop,
    B: Door<L> + Drop,
    E: Engine,
    J: Naming,
    O: Drop,
    T: Shown<J, O>,
    R: Wait + Drop,
    L1: Ledger,
    L2: Since,
>(
    rt: &impl Wait,
    alloc: Global,
    lock: &Lock<E, J, O, T, R, L1, L2>,
    clock: &impl Clock,
    post: &mut Post<B, J, O, T, L1, L2>,
)
    ensures failed { post.new.failed ≡ true
        → HasRisen (B.faults post.old.door) (B.faults post.new.door) }
    ensures closed { post.new.failed ≡ false
        → IsClosed (B.left post.old.door) (B.left post.new.door) }
    ensures links { post.new.failed ≡ false → CameAll (B.left post.old.door) post.new.links }
    ensures came { CameSince (B.left post.old.door) (B.left post.new.door) post.new.links }
{
    let Post {
        seat,
        door,
        links,
        failed,
    } = post;
    *failed = false;
    *links = 0;
    'serving: for _ in rt.forever() {
        match door.accept() {
            Err(Failed) => {
                *failed = true;
                return;
            }
            Ok(None) => return,
            Ok(Some(link)) => {
                serve_one(rt, alloc, lock, seat, clock, link);
                *links = links.saturating_add(1);
            }
        }
    }
    unreachable!()
}

/// What came of these posts.
fn total<B: Drop, J: Naming, O: Drop, T: Shown<J, O>, L1: Ledger, L2: Ledger>(
    posts: &[Post<B, J, O, T, L1, L2>],
) -> Served
    ensures links { result.links ≡ min (sum_by (λ p. p.links) posts.now) (2 ^ 64 - 1) }
    ensures failed { result.door_failed ≡ true → (i : ℕ) × (i < length posts.now)
        × ((d : _) → (slice_index_or posts.now i d).failed ≡ true) }
    ensures fine { result.door_failed ≡ false → (i : ℕ) (d : _) → i < length posts.now
        → (slice_index_or posts.now i d).failed ≡ false }
{
    let mut links: u64 = 0;
    let mut door_failed = false;
    'posts: for post in posts {
        links = links.saturating_add(post.links);
        door_failed = door_failed || post.failed;
    }
    Served { links, door_failed }
}

/// Serves at the doors of all posts at once, each in a thread.
fn serve_each<
    L: Link + Drop + Send,
    B: Door<L> + Drop + Send,
    E: Engine + Send,
    J: Naming + Send + Sync,
    O: Drop + Send + Sync,
    T: Shown<J, O> + Send + Sync,
    R: Wait + Drop + Send + Sync,
    L1: Ledger + Send + Sync,
    L2: Since + Send + Sync,
    C: Clock + Sync,
    W: Threads + Wait + Sync,
>(
    rt: &W,
    alloc: Global,
    lock: &Lock<E, J, O, T, R, L1, L2>,
    posts: &mut [Post<B, J, O, T, L1, L2>],
    clock: &C,
)
    requires some { 0 < length posts.old }
    ensures failed { (i : ℕ) (d : _) → i < length posts.old
        → (slice_index_or posts.new i d).failed ≡ true
        → HasRisen (B.faults (slice_index_or posts.old i d).door)
        (B.faults (slice_index_or posts.new i d).door) }
    ensures closed { (i : ℕ) (d : _) → i < length posts.old
        → (slice_index_or posts.new i d).failed ≡ false
        → IsClosed (B.left (slice_index_or posts.old i d).door)
        (B.left (slice_index_or posts.new i d).door) }
    ensures links { (i : ℕ) (d : _) → i < length posts.old
        → (slice_index_or posts.new i d).failed ≡ false
        → CameAll (B.left (slice_index_or posts.old i d).door)
        (slice_index_or posts.new i d).links }
    ensures came { (i : ℕ) (d : _) → i < length posts.old
        → CameSince (B.left (slice_index_or posts.old i d).door)
        (B.left (slice_index_or posts.new i d).door) (slice_index_or posts.new i d).links }
{
    let count = posts.len();
    let at_door = |_: usize, post: &mut Post<B, J, O, T, L1, L2>|
        ensures failed { post.exit.now.failed ≡ true
            → HasRisen (B.faults post.entry.now.door) (B.faults post.exit.now.door) }
        ensures closed { post.exit.now.failed ≡ false
            → IsClosed (B.left post.entry.now.door) (B.left post.exit.now.door) }
        ensures links { post.exit.now.failed ≡ false
            → CameAll (B.left post.entry.now.door) post.exit.now.links }
        ensures came { CameSince (B.left post.entry.now.door) (B.left post.exit.now.door)
            post.exit.now.links }
    { work::<L, B, E, J, O, T, R, L1, L2>(rt, alloc, lock, clock, post) };
    thread::for_each_mut(rt, posts, count, &at_door);
}

/// Serves at the doors of all posts at once, each in a thread, until no more links come at a door or it fails.
/// Each link is served by a desk of its post's seat. Where no door failed, each door that tells has no link
/// left, and where all tell, `links` is how many they had. `door_failed` says whether a post's door failed, and
/// `links` is the sum of what the posts count, those that failed too: each counts how many links its door gave.
pub fn serve<
    L: Link + Drop + Send,
    B: Door<L> + Drop + Send,
    E: Engine + Send,
    J: Naming + Send + Sync,
    O: Drop + Send + Sync,
    T: Shown<J, O> + Send + Sync,
    R: Wait + Drop + Send + Sync,
    L1: Ledger + Send + Sync,
    L2: Since + Send + Sync,
    C: Clock + Sync,
    W: Threads + Wait + Sync,
>(
    rt: &W,
    alloc: Global,
    lock: &Lock<E, J, O, T, R, L1, L2>,
    posts: &mut [Post<B, J, O, T, L1, L2>],
    clock: &C,
) -> Served
    requires some { 0 < length posts.old }
    ensures failed { result.door_failed ≡ true → (i : ℕ) × (i < length posts.old)
        × ((d : _) → HasRisen (B.faults (slice_index_or posts.old i d).door)
        (B.faults (slice_index_or posts.new i d).door)) }
    ensures closed { result.door_failed ≡ false → (i : ℕ) (d : _) → i < length posts.old
        → IsClosed (B.left (slice_index_or posts.old i d).door)
        (B.left (slice_index_or posts.new i d).door) }
    ensures links { result.door_failed ≡ false
        → CameAll (links_at (λ p. B.left p.door) posts.old) result.links }
    ensures total { result.links ≡ min (sum_by (λ p. p.links) posts.new) (2 ^ 64 - 1) }
    ensures some_failed { result.door_failed ≡ true → (i : ℕ) × (i < length posts.new)
        × ((d : _) → (slice_index_or posts.new i d).failed ≡ true) }
    ensures none_failed { result.door_failed ≡ false → (i : ℕ) (d : _) → i < length posts.new
        → (slice_index_or posts.new i d).failed ≡ false }
    ensures each_failed { (i : ℕ) (d : _) → i < length posts.old
        → (slice_index_or posts.new i d).failed ≡ true
        → HasRisen (B.faults (slice_index_or posts.old i d).door)
        (B.faults (slice_index_or posts.new i d).door) }
    ensures each_closed { (i : ℕ) (d : _) → i < length posts.old
        → (slice_index_or posts.new i d).failed ≡ false
        → IsClosed (B.left (slice_index_or posts.old i d).door)
        (B.left (slice_index_or posts.new i d).door) }
    ensures each_links { (i : ℕ) (d : _) → i < length posts.old
        → CameSince (B.left (slice_index_or posts.old i d).door)
        (B.left (slice_index_or posts.new i d).door) (slice_index_or posts.new i d).links }
{
    serve_each::<L, B, E, J, O, T, R, L1, L2, C, W>(rt, alloc, lock, posts, clock);
    total(posts)
}
