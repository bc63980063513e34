//! The points of each parent that wait for those of others.

ghost use Rattle.std.specs.Prelude.{◌≡◌, ◌++◌, ◌∷◌, [], replicate, drop, flat_map, slice_get, is_some, length, take, IfOk, OnOk};
ghost use Rattle.state_code.specs.Laws.{list_spelled};
ghost use Rattle.state_code.specs.Points.{FitsPoint, point_spelled, read_point, spell_point};
ghost use Rattle.state_code.specs.Spelling.{AllFit, FitsList, read_list, spell_list};
ghost use Rattle.join_node.specs.Queues.{emptied, has_points, is_ready, place, push, rests};
ghost use Rattle.join_node.specs.Sets.{set_at};

use kap_base::{Bytes, ItemList, NoMemory, Point, Points, Shared};
use state_code::{CodeFault, Cursor, Spelled, put_u32};
use std::alloc::Global;
use std::collections::VecDeque;
use std::marker::Model;

/// Of each parent a point, if it is there.
pub(crate) type Set = ItemList<Option<Shared<Point>>>;

/// The points of a parent that wait, in order.
#[derive(Drop)]
pub struct Queue {
    points: VecDeque<Shared<Point>>,
}

impl Model for Queue {
    ghost use Rattle.std.specs.Coded.{codes};
    ghost use Rattle.std.specs.Prelude.{List};
    ghost use Rattle.kap_base.specs.Maps.{key_map_code};
    ghost use Rattle.kap_base.specs.Points.{PointValue};

    ghost Value = { List PointValue };

    ghost coded = { Prim.hlevel (codes, key_map_code) };

    ghost view = { λ q. q.points.items };
}

impl Queue {
    /// No points.
    fn new(alloc: Global) -> Queue
        ensures { result ≡ [] }
    {
        Queue {
            points: VecDeque::new(alloc),
        }
    }

    /// Whether it has a point.
    fn has_point(&self) -> bool
        ensures { result ≡ is_some (slice_get self.now 0) }
    {
        !self.points.is_empty()
    }

    /// Adds a point at the end.
    fn push(&mut self, point: Shared<Point>) -> Result<(), NoMemory>
        ensures { OnOk result (self.new ≡ self.old ++ point ∷ []) }
    {
        self.points.push_back(point)?;
        Ok(())
    }

    /// Takes the first point, if there is one.
    fn pop(&mut self) -> Option<Shared<Point>>
        ensures first { result ≡ slice_get self.old 0 }
        ensures rest { self.new ≡ drop 1 self.old }
    {
        self.points.pop_front()
    }

    /// Removes all points, and keeps their room.
    fn clear(&mut self)
        ensures { self.new ≡ [] }
    {
        self.points.truncate(0);
    }
}

/// Appends points, one after the other.
fn put_points(points: &[Shared<Point>], to: &mut Bytes) -> Result<(), NoMemory>
    ensures bytes { OnOk result (to.new ≡ to.old ++ flat_map spell_point points.now) }
    ensures fits { OnOk result (AllFit FitsPoint points.now) }
    ensures before { take (length to.old) to.new ≡ to.old }
{
    'putting: for point in points {
        point.value().append_spelling(to)?;
    }
    Ok(())
}

/// The points, each with one owner.
fn shared(alloc: Global, points: Vec<Point>) -> Result<Vec<Shared<Point>>, NoMemory>
    ensures { IfOk result (λ shared. shared.items ≡ points.items) }
{
    let mut shared = Vec::with_capacity(alloc, points.len())?;
    'sharing: for point in points {
        shared.push(Shared::new(alloc, point)?)?;
    }
    Ok(shared)
}

/// The number of points, and the points.
impl Spelled for Queue {
    ghost fits = { FitsList FitsPoint };

    ghost spell = { spell_list spell_point };

    ghost read = { read_list read_point };

    ghost spelled = { list_spelled point_spelled };

    fn append_spelling(&self, to: &mut Bytes) -> Result<(), NoMemory> {
        let Ok(count) = u32::try_from(self.points.len()) else {
            return Err(NoMemory);
        };
        let (front, back) = self.points.as_slices();
        put_u32(to, count)?;
        put_points(front, to)?;
        put_points(back, to)
    }

    fn read_spelling(alloc: Global, from: &mut Cursor) -> Result<Queue, CodeFault> {
        let points = <Points as Spelled>::read_spelling(alloc, from)?.into_items();
        Ok(Queue {
            points: VecDeque::from_vec(shared(alloc, points)?),
        })
    }
}

/// A queue without points for each parent.
pub(crate) fn no_queues(alloc: Global, parents: usize) -> Result<Vec<Queue>, NoMemory>
    ensures { IfOk result (λ queues. queues.items ≡ replicate parents []) }
{
    let mut queues = Vec::new(alloc);
    'adding: for _ in 0..parents {
        queues.push(Queue::new(alloc))?;
    }
    Ok(queues)
}

/// Removes the points of all queues.
pub(crate) fn empty(queues: &mut [Queue])
    ensures { queues.new ≡ emptied queues.old }
{
    'emptying: for queue in queues.iter_mut() {
        queue.clear();
    }
}

/// Whether some queue has a point.
pub(crate) fn have_points(queues: &[Queue]) -> bool
    ensures { result ≡ has_points queues.now }
{
    let mut rest = queues;
    'passing: while let Some((first, others)) = rest.split_first() {
        if first.has_point() {
            return true;
        }
        rest = others;
    }
    false
}

/// Whether each queue has a point.
fn are_ready(queues: &[Queue]) -> bool
    ensures { result ≡ is_ready queues.now }
{
    let mut rest = queues;
    'passing: while let Some((first, others)) = rest.split_first() {
        if !first.has_point() {
            return false;
        }
        rest = others;
    }
    true
}

/// Takes the first point of each queue.
pub(crate) fn take_set(alloc: Global, queues: &mut [Queue]) -> Result<Set, NoMemory>
    ensures set { IfOk result (λ set. set ≡ set_at 0 queues.old) }
    ensures rests { OnOk result (queues.new ≡ rests queues.old) }
{
    let mut set = Vec::with_capacity(alloc, queues.len())?;
    'taking: for queue in queues.iter_mut() {
        set.push(queue.pop())?;
    }
    Ok(ItemList::from_items(set))
}

/// Puts a point behind those of its parent.
fn push(queues: &mut [Queue], parent: usize, point: Shared<Point>) -> Result<(), NoMemory>
    ensures { OnOk result (queues.new ≡ push parent point queues.old) }
{
    if parent >= queues.len() {
        return Ok(());
    }
    queues[parent].push(point)
}

/// Puts a point behind those of its parent, and takes the set that it fills.
pub(crate) fn place(
    alloc: Global,
    queues: &mut [Queue],
    parent: usize,
    point: Shared<Point>,
) -> Result<Option<Set>, NoMemory>
    ensures queues { OnOk result (queues.new ≡ (place parent point queues.old).queues) }
    ensures filled { IfOk result (λ filled. filled ≡ (place parent point queues.old).filled) }
{
    push(queues, parent, point)?;
    if !are_ready(queues) {
        return Ok(None);
    }
    Ok(Some(take_set(alloc, queues)?))
}
