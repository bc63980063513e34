//! A new board.

ghost use Rattle.std.specs.Prelude.{◌≡◌, ◌<◌, ◌≤◌, [], IfOk, vec_len};
ghost use Rattle.std.specs.List.{All};
ghost use Rattle.topic_board.specs.Values.{IsNew};

use crate::history::{Front, Naming, Opened};
use crate::look::Look;
use crate::poster::Poster;
use crate::shown::{Posted, Published, Shown};
use kap_base::NoMemory;
use left_right::WriteHandle;
use std::alloc::{AllocError, Global};
use std::sync::Wait;

/// A poster and its looks.
pub type Board<J, R> = (
    Poster<J, Posted<J>, Published<J>, R>,
    Vec<Look<J, Posted<J>, Published<J>>>,
);

/// An empty board with so many looks, one for each place. It keeps the runtime, since it waits for readers
/// where it publishes and where it ends.
pub fn board<J: Naming, R: Wait + Drop>(
    rt: R,
    alloc: Global,
    opened: Opened,
    places: u32,
) -> Result<Board<J, R>, NoMemory>
    requires book { opened ≡ J.book }
    requires places { (0 < places) × (places ≤ 64) }
    ensures empty { IfOk result (λ r. (r.0.published ≡ []) × (r.0.pending ≡ [])) }
    ensures places { IfOk result (λ r. vec_len r.1 ≡ places) }
    ensures looks { IfOk result (λ r. All IsNew r.1.items) }
{
    let (book, front) = opened.named::<J>();
    let first = Published::new(alloc, front.again());
    let second = Published::new(alloc, front.again());
    let start = front.again();
    let handle = WriteHandle::new(alloc, rt, first, second, places as usize)?;
    let poster = Poster::new(book, front, handle);
    let looks = looks(&poster, alloc, start, places)?;
    Ok((poster, looks))
}

fn looks<J: Naming, O: Drop, T: Shown<J, O>, R: Wait + Drop>(
    poster: &Poster<J, O, T, R>,
    alloc: Global,
    start: Front<J>,
    places: u32,
) -> Result<Vec<Look<J, O, T>>, AllocError>
    requires { start ≡ [] }
    ensures places { IfOk result (λ looks. vec_len looks ≡ places) }
    ensures looks { IfOk result (λ looks. All IsNew looks.items) }
{
    let mut looks = Vec::new(alloc);
    'looks: for _ in 0..places {
        looks.push(poster.look(start.again())?)?;
    }
    Ok(looks)
}
