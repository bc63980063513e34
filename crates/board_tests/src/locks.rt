//! A poster under a lock, to which two threads post.

ghost use Rattle.std.specs.Prelude.{◌≡◌};

use crate::looks::{level_in, tell};
use crate::posts::{show, transition};
use kap_base::{Level, NoMemory, Text};
use std::alloc::Global;
use std::marker::Brand;
use std::process::Abort;
use std::sync::{Mutex, Wait};
use std::test::Fail;
use std::thread::{Threads, join};
use topic_board::{Look, Naming, Opened, Poster, Shown, board};

/// How many transitions each thread posts.
const POSTS: u64 = 1_000;

/// Posts and publishes under the lock, each time anew.
fn post_some<J: Naming, O: Drop, T: Shown<J, O>, R: Wait + Drop, H: Wait>(
    rt: &H,
    alloc: Global,
    lock: &Mutex<Poster<J, O, T, R>>,
    topic: &str,
) -> Result<(), NoMemory> {
    'posting: for number in 0..POSTS {
        let next = transition(alloc, number + 1, topic, "east", Level::Warning)?;
        let mut poster = lock.lock(rt);
        show(alloc, &mut poster, &next)?;
    }
    Ok(())
}

/// Whether all that both posted was published.
fn has_both<J: Naming, O: Drop, T: Shown<J, O>, R: Wait + Drop>(
    poster: &Poster<J, O, T, R>,
) -> bool {
    let (posted, published) = (poster.count(), poster.tell().len());
    posted == 2 * POSTS && published == 2 * POSTS
}

/// Whether a look that is told sees what both posted.
fn sees_both<J: Naming, O: Drop, T: Shown<J, O>, R: Wait + Drop>(
    alloc: Global,
    poster: &Poster<J, O, T, R>,
    look: &mut Look<J, O, T>,
) -> Result<bool, NoMemory> {
    let (first, second) = (
        Text::from_str(alloc, "one")?,
        Text::from_str(alloc, "other")?,
    );
    tell(poster, look);
    let one = level_in(look, &first);
    let other = level_in(look, &second);
    let warning = Some(Some(Level::Warning));
    let has_all = has_both(poster);
    Ok(one == warning && other == warning && has_all)
}

/// Both threads post to the board.
fn share<
    J: Naming + Send + Sync,
    O: Drop + Send + Sync,
    T: Shown<J, O> + Send + Sync,
    R: Wait + Drop + Send + Sync,
    H: Wait + Threads + Sync,
>(
    rt: &H,
    alloc: Global,
    poster: Poster<J, O, T, R>,
    look: &mut Look<J, O, T>,
) -> Result<bool, NoMemory> {
    let lock = Mutex::new(poster);
    let (one, other) = join(
        rt,
        || post_some(rt, alloc, &lock, "one"),
        || post_some(rt, alloc, &lock, "other"),
    );
    let poster = lock.into_inner();
    let posted = one.is_ok() && other.is_ok();
    Ok(posted && sees_both(alloc, &poster, look)?)
}

fn shared<J: Naming + Send + Sync, R: Threads + Wait + Sync>(
    rt: &R,
    alloc: Global,
    opened: Opened,
) -> Result<bool, NoMemory>
    requires { opened ≡ J.book }
{
    let (poster, mut looks) = board::<J, &R>(rt, alloc, opened, 1)?;
    match looks.pop() {
        None => Ok(false),
        Some(mut look) => share(rt, alloc, poster, &mut look),
    }
}

#[test]
fn two_threads_post_under_a_lock(rt: HostRuntime) -> Result<(), Fail> {
    assert!(rt; shared::<Brand, _>(&rt, rt.alloc(), Opened::new())?);
    Ok(())
}
