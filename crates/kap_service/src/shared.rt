//! The engine that many share, from its beginning to its end.

ghost use Rattle.std.specs.Prelude.{◌≡◌, ◌+◌, ◌<◌, ◌≤◌, ℕ, [], false, true, vec_len, IfErr, IfOk, IsErrOf, IsTrue};
ghost use Rattle.std.specs.List.{All, sum_by};
ghost use Rattle.kap_base.specs.Points.{is_time};
ghost use Rattle.kap_base.specs.Words.{HasRisen};
ghost use Rattle.kap_io.specs.declared.disk.Part.{Part};
ghost use Rattle.reply_bodies.specs.Asks.{IsFailed};
ghost use Rattle.topic_board.specs.Values.{IsNew};
ghost use Rattle.kap_service.specs.Asks.{status_of};
ghost use Rattle.kap_service.specs.Causes.{AreCaused};
ghost use Rattle.kap_service.specs.Desks.{WasDecided};
ghost use Rattle.kap_service.specs.Kept.{IsNewSeat, posted};
ghost use Rattle.kap_service.specs.Stores.{AreAllBehind, HasRead};
ghost use Rattle.kap_service.specs.Values.{Stores};
ghost use Rattle.kap_service.specs.declared.fault.ShareFault.TheVariants.{DiskFault, NotStore};

use crate::decided::Decided;
use crate::engine::Engine;
use crate::fault::ShareFault;
use crate::seat::Seat;
use crate::showing::post_missing;
use crate::state::{Since, State};
use kap_base::NoMemory;
use kap_http::{Ask, Reply};
use std::alloc::{AllocError, Global};
use std::marker::Model;
use std::sync::ledger::{Blank, Book, Ledger, Share};
use std::sync::{Mutex, Wait};
use topic_board::{Front, Look, Naming, Opened, Posted, Poster, Published, Shown, board};

/// What threads share: the engine, the board and the books, under one lock.
#[derive(Drop)]
pub struct Lock<
    E: Engine,
    J: Naming,
    O: Drop,
    T: Shown<J, O>,
    R: Wait + Drop,
    L1: Ledger,
    L2: Since,
> {
    state: Mutex<State<E, J, O, T, R, L1, L2>>,
}

impl<E: Engine, J: Naming, O: Drop, T: Shown<J, O>, R: Wait + Drop, L1: Ledger, L2: Since> Lock<
    E,
    J,
    O,
    T,
    R,
    L1,
    L2,
> {
    /// Takes the lock, makes the engine again where it is spent, and decides. What was stored is published
    /// then, unless memory is short. Behind it the seat's shares have risen: that of changes by one exactly
    /// where a changing ask got 200 or 204, that of faults exactly at 500; and the seat keeps what was
    /// published, which goes on from what it kept before, and whether that is all that is stored, its own
    /// change too. A refusal is 500, where the engine couldn't be made again since its disk failed or isn't
    /// that of a store, or 503, where memory ran out or a book is full.
    pub fn answer<'a>(
        &self,
        rt: &impl Wait,
        alloc: Global,
        seat: &mut Seat<J, O, T, L1, L2>,
        ask: &'a Ask,
        now: i64,
    ) -> Result<Decided<'a, E>, Reply>
        requires time { IsTrue (is_time now) }
        ensures own { IfOk result (λ d. (d.ask ≡ ask.now) × (d.moment ≡ now)) }
        ensures refusal { IfErr result (λ reply. IsFailed reply.status) }
        ensures behind { IsTrue L2.owned → IfOk result (λ d. seat.old.changes ≤ d.changes) }
        ensures seat { WasDecided ask.now (status_of result) seat.old seat.new }
        ensures look { (seat.new.known ≡ seat.old.known) × (seat.new.aways ≡ seat.old.aways) }
        ensures shown { IsTrue L2.owned → seat.new.shown ≡ true
            → IfOk result (AreAllBehind E.value E.right E.leaves ask.now seat.new.told) }
    {
        let mut state = self.state.lock(rt);
        state.answer(alloc, seat, ask, now)
    }
}

/// The lock, with the shares that no seat has. It stays with its owner, since a share isn't `Sync`; threads
/// borrow the lock.
#[derive(Drop)]
pub struct Shared<
    E: Engine,
    J: Naming,
    O: Drop,
    T: Shown<J, O>,
    R: Wait + Drop,
    L1: Ledger,
    L2: Since,
> {
    lock: Lock<E, J, O, T, R, L1, L2>,
    // its amount is the changes that the store had at the start
    first: Share<L1>,
    second: Share<L2>,
    began: u64,
}

impl<E: Engine, J: Naming, O: Drop, T: Shown<J, O>, R: Wait + Drop, L1: Ledger, L2: Since> Model
    for Shared<E, J, O, T, R, L1, L2> {
    ghost use Rattle.std.specs.Prelude.{◌≡◌};
    ghost use Rattle.kap_service.specs.Values.{Sharing};

    ghost Value = { Sharing };

    ghost view = { λ s. record {
      began = s.first.amount;
      first_parts = s.first.parts;
      second_parts = s.second.parts;
    } };

    ghost invariant = { λ s. (s.began ≡ s.first.amount) × (s.second.amount ≡ 0) };
}

/// What is left when all seats came back.
#[derive(Drop)]
pub struct Closed<E: Engine> {
    /// The engine.
    pub engine: E,
    /// How often a changing ask got 200 or 204.
    pub changes: u64,
    /// How often an ask got 500.
    pub faults: u64,
    /// Whether an ask got 503, or memory was short for what is to be published.
    pub short: bool,
}

/// What is left where an engine isn't shared.
#[derive(Drop)]
pub struct Unshared<E: Engine> {
    /// Why not.
    pub fault: ShareFault,
    /// The engine, as it was.
    pub engine: E,
}

/// Posts and publishes all transitions that are stored.
fn show_stored<E: Engine, J: Naming, O: Drop, T: Shown<J, O>, R: Wait + Drop>(
    alloc: Global,
    engine: &mut E,
    poster: &mut Poster<J, O, T, R>,
) -> Result<Front<J>, ShareFault>
    requires unspent { (E.value engine.old).spent ≡ false }
    requires empty { (poster.old.published ≡ []) × (poster.old.pending ≡ []) }
    ensures read { HasRead E.value E.right E.leaves engine.old engine.new }
    ensures posted { E.right engine.old → (store : Stores) → E.leaves engine.old store
        → IfOk result (λ told. posted poster.new ≡ store.stored) }
    ensures none { IfOk result (λ told. poster.new.pending ≡ []) }
    ensures told { E.right engine.old → (store : Stores) → E.leaves engine.old store
        → IfOk result (λ told. told ≡ store.stored) }
    ensures disk { IsErrOf result DiskFault
        → HasRisen (E.value engine.old).faults.disk (E.value engine.new).faults.disk }
    ensures store { E.right engine.old → (part : Part) (offset : ℕ)
        → IsErrOf result (NotStore part offset) → ⊥ }
{
    post_missing(alloc, engine, poster)?;
    poster.publish()?;
    Ok(poster.tell())
}

impl<E: Engine, J: Naming, O: Drop, T: Shown<J, O>, R: Wait + Drop, L1: Ledger, L2: Since> Shared<
    E,
    J,
    O,
    T,
    R,
    L1,
    L2,
> {
    /// What threads share.
    pub fn lock(&self) -> &Lock<E, J, O, T, R, L1, L2> {
        &self.lock
    }

    /// Ends the board, which waits for the looks that are in, and gathers all shares of all seats. Where no
    /// ask got 500 and nothing was short, the store has as many new changes as there were replies 200 and 204
    /// to changing asks; else no fewer. No more asks got 500 than the counts of faults have risen by.
    pub fn close(self, seats: Vec<Seat<J, O, T, L1, L2>>) -> Closed<E>
        requires { (self.first_parts + vec_len seats ≡ L1.parts)
            × (self.second_parts + vec_len seats ≡ L2.parts) }
        ensures changes { result.changes ≡ sum_by (λ s. s.changes) seats.items }
        ensures faults { result.faults ≡ sum_by (λ s. s.faults) seats.items }
        ensures usable { result.faults ≡ 0 → result.short ≡ false
            → (E.value result.engine).spent ≡ false }
        ensures right { IsTrue L2.owned → E.right result.engine }
        ensures exact { IsTrue L2.owned → result.faults ≡ 0 → result.short ≡ false
            → (E.value result.engine).changes ≡ self.began + result.changes }
        ensures below { IsTrue L2.owned → (store : Stores) → E.leaves result.engine store
            → self.began + result.changes ≤ store.changes }
        ensures caused { IsTrue L2.owned → AreCaused L2.before
            (E.value result.engine).faults result.faults }
    {
        let Self {
            lock: Lock { state },
            mut first,
            mut second,
            began,
        } = self;
        gather(&mut first, &mut second, seats);
        ended(state.into_inner(), first, second, began)
    }
}

/// A shared engine with the board that there is, and its seats.
pub type Service<E, J, R, L1, L2> = (
    Shared<E, J, Posted<J>, Published<J>, R, L1, L2>,
    Vec<Seat<J, Posted<J>, Published<J>, L1, L2>>,
);

/// Shares an engine by a new board, with so many seats, 1 to 64. All transitions that are stored are on the
/// board then. The ledgers are new; each has more parts than there are seats. A refusal gives the engine back,
/// whose store is unchanged: `DiskFault` comes only where the disk's count of faults rose in this call, and
/// `NotStore` only where the disk doesn't tell its bytes.
pub fn make_shared<E: Engine, J: Naming, R: Wait + Drop, L1: Ledger, L2: Since>(
    rt: R,
    alloc: Global,
    opened: Opened,
    engine: E,
    first: Blank,
    second: Blank,
    seats: u32,
) -> Result<Service<E, J, R, L1, L2>, Unshared<E>>
    requires book { opened ≡ J.book }
    requires unspent { (E.value engine).spent ≡ false }
    requires places { (0 < seats) × (seats ≤ 64) }
    requires names { (first.name ≡ L1.name) × (second.name ≡ L2.name) }
    requires parts { (first.parts ≡ L1.parts) × (second.parts ≡ L2.parts) }
    requires more { (seats < first.parts) × (seats < second.parts) }
    requires before { L2.before ≡ (E.value engine).faults }
    requires owned { IsTrue L2.owned → E.right engine }
    ensures began { IfOk result (λ r. r.0.began ≡ (E.value engine).changes) }
    ensures seats { IfOk result (λ r. vec_len r.1 ≡ seats) }
    ensures whole { IfOk result (λ r. (r.0.first_parts + vec_len r.1 ≡ L1.parts)
        × (r.0.second_parts + vec_len r.1 ≡ L2.parts)) }
    ensures new { IfOk result (λ r. All IsNewSeat r.1.items) }
    ensures none { IfOk result (λ r. (sum_by (λ s. s.changes) r.1.items ≡ 0)
        × (sum_by (λ s. s.faults) r.1.items ≡ 0)) }
    ensures told { E.right engine → (store : Stores) → E.leaves engine store
        → IfOk result (λ r. All (λ s. s.told ≡ store.stored) r.1.items) }
    ensures same { IfErr result (λ left.
        HasRead E.value E.right E.leaves engine left.engine) }
    ensures disk { IfErr result (λ left. left.fault ≡ DiskFault
        → HasRisen (E.value engine).faults.disk (E.value left.engine).faults.disk) }
    ensures store { E.right engine → IfErr result (λ left. (part : Part) (offset : ℕ)
        → left.fault ≡ NotStore part offset → ⊥) }
{
    let mut engine = engine;
    let (mut poster, looks) = match board::<J, R>(rt, alloc, opened, seats) {
        Ok(made) => made,
        Err(NoMemory) => {
            return Err(Unshared {
                fault: ShareFault::NoMemory,
                engine,
            });
        }
    };
    let told = match show_stored(alloc, &mut engine, &mut poster) {
        Ok(told) => told,
        Err(fault) => return Err(Unshared { fault, engine }),
    };
    let began = engine.changes();
    let (mut book, mut first) = first.open::<L1>();
    let (second_book, mut second) = second.open::<L2>();
    book.add(&mut first, began);
    let seats = match seats_of(alloc, &mut first, &mut second, &told, looks) {
        Ok(seats) => seats,
        Err(AllocError) => {
            return Err(Unshared {
                fault: ShareFault::NoMemory,
                engine,
            });
        }
    };
    let state = State::new(engine, poster, book, second_book, began);
    let shared = Shared {
        lock: Lock {
            state: Mutex::new(state),
        },
        first,
        second,
        began,
    };
    Ok((shared, seats))
}

/// What the state says once all shares are here.
fn ended<E: Engine, J: Naming, O: Drop, T: Shown<J, O>, R: Wait + Drop, L1: Ledger, L2: Since>(
    state: State<E, J, O, T, R, L1, L2>,
    first: Share<L1>,
    second: Share<L2>,
    began: u64,
) -> Closed<E>
    requires whole { (first.parts ≡ L1.parts) × (second.parts ≡ L2.parts) }
    requires began { began ≤ first.amount }
    ensures changes { began + result.changes ≡ first.amount }
    ensures faults { result.faults ≡ second.amount }
    ensures usable { result.faults ≡ 0 → result.short ≡ false
        → (E.value result.engine).spent ≡ false }
    ensures right { IsTrue L2.owned → E.right result.engine }
    ensures exact { IsTrue L2.owned → result.faults ≡ 0 → result.short ≡ false
        → (E.value result.engine).changes ≡ first.amount }
    ensures below { IsTrue L2.owned → (store : Stores) → E.leaves result.engine store
        → first.amount ≤ store.changes }
    ensures caused { IsTrue L2.owned → AreCaused L2.before
        (E.value result.engine).faults result.faults }
{
    let mut first = first;
    let mut second = second;
    let State {
        engine,
        poster: _poster,
        first: mut one,
        second: mut two,
        firsts,
        seconds,
        short,
    } = state;
    one.audit(&mut first);
    two.audit(&mut second);
    Closed {
        engine,
        changes: firsts - began,
        faults: seconds,
        short,
    }
}

/// Merges the shares of all seats into these two.
fn gather<J: Naming, O: Drop, T: Shown<J, O>, L1: Ledger, L2: Ledger>(
    first: &mut Share<L1>,
    second: &mut Share<L2>,
    seats: Vec<Seat<J, O, T, L1, L2>>,
)
    ensures parts { (first.new.parts ≡ first.old.parts + vec_len seats)
        × (second.new.parts ≡ second.old.parts + vec_len seats) }
    ensures first { first.new.amount ≡ first.old.amount + sum_by (λ s. s.changes) seats.items }
    ensures second { second.new.amount ≡ second.old.amount + sum_by (λ s. s.faults) seats.items }
{
    'gathering: for seat in seats {
        let (one, two) = seat.shares();
        first.merge(one);
        second.merge(two);
    }
}

/// A seat for each look, each with a part of both shares.
fn seats_of<J: Naming, O: Drop, T: Shown<J, O>, L1: Ledger, L2: Ledger>(
    alloc: Global,
    first: &mut Share<L1>,
    second: &mut Share<L2>,
    told: &Front<J>,
    looks: Vec<Look<J, O, T>>,
) -> Result<Vec<Seat<J, O, T, L1, L2>>, AllocError>
    requires parts { (vec_len looks < first.old.parts) × (vec_len looks < second.old.parts) }
    requires amount { second.old.amount ≡ 0 }
    requires looks { All IsNew looks.items }
    ensures count { IfOk result (λ seats. vec_len seats ≡ vec_len looks) }
    ensures new { IfOk result (λ seats. All IsNewSeat seats.items) }
    ensures told { IfOk result (λ seats. All (λ s. s.told ≡ told.now) seats.items) }
    ensures none { IfOk result (λ seats. (sum_by (λ s. s.changes) seats.items ≡ 0)
        × (sum_by (λ s. s.faults) seats.items ≡ 0)) }
    ensures parts { IfOk result (λ seats. (first.new.parts + vec_len looks ≡ first.old.parts)
        × (second.new.parts + vec_len looks ≡ second.old.parts)) }
    ensures amounts { IfOk result (λ seats. (first.new.amount ≡ first.old.amount)
        × (second.new.amount ≡ 0)) }
{
    let mut seats = Vec::new(alloc);
    'seats: for look in looks {
        let seat = Seat::new(
            look,
            first.split_off(1, 0),
            second.split_off(1, 0),
            told.again(),
        );
        seats.push(seat)?;
    }
    Ok(seats)
}
