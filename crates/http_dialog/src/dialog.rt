//! The machine of a connection.

ghost use Rattle.std.specs.Prelude.{◌≡◌, ◌≢◌, ◌+◌, ◌<◌, ◌≤◌, ◌⊎◌, ◌++◌, ◌||◌, ◌==◌, [], ℕ, List, None, Ok, Some, drop, length, take, MatchBool, OnErr, OnOk};
ghost use Rattle.kap_http.specs.Calls.{AddsCall};
ghost use Rattle.kap_http.specs.Reading.{Gives};
ghost use Rattle.kap_http.specs.ReplyValues.{ReplyValue};
ghost use Rattle.http_dialog.specs.Dialogs.{HasPast, IsPrinted, Past, Steps, fresh, no_past, reach, room, with_end, with_gone, with_piece};
ghost use Rattle.http_dialog.specs.Endings.{ending_after};
ghost use Rattle.http_dialog.specs.Outputs.{IsFree};

use crate::ending::{DialogEnd, ending_after};
use crate::input::{HELD_LIMIT, Input};
use crate::output::Output;
use crate::want::Want;
use kap_base::NoMemory;
use kap_http::{HttpFault, Request, Serve, print_reply};
use std::alloc::Global;
use std::marker::Model;

/// How many requests are taken of a connection.
const REQUESTS: u32 = 1000;

/// A connection between the bytes that come and those that are due.
#[derive(Drop)]
pub struct Dialog {
    input: Input,
    left: u32,
    output: Output,
    ending: Option<DialogEnd>,
}

impl Model for Dialog {
    ghost use Rattle.std.specs.Prelude.{◌<◌, MatchOption};
    ghost use Rattle.http_dialog.specs.Dialogs.{DialogValue};

    ghost Value = { DialogValue };

    ghost view = { λ d. record {
      held = d.input;
      left = d.left;
      due = d.output.due;
      ending = d.ending;
    } };

    ghost invariant = { λ d. MatchOption d.ending (0 < d.left) (λ _. Unit {0}) };
}

/// Has a request answered, and adds the reply to what is due: its text, or that of a 503 where memory ran
/// out as it was printed. Behind the answer no memory is asked for that can't be done without.
fn answer<H: Serve>(
    alloc: Global,
    number: u32,
    serve: &mut H,
    request: &Request,
    due: bool,
    output: &mut Output,
)
    requires { IsFree output.old }
    ensures { (reply : ReplyValue) × (text : List ℕ) ×
        AddsCall (H.served serve.old) (H.served serve.new) number request.now reply ×
        IsPrinted due reply text × (output.new.due ≡ output.old.due ++ text) }
{
    let mut reply = serve.serve(alloc, number, request);
    let last = reply.last || due;
    reply.last = last;
    match print_reply(alloc, &reply) {
        Ok(text) => output.add(text),
        Err(NoMemory) => output.add_lack(last),
    }
}

/// Whether the reply is due as the last one: so many further requests are taken, this one among them.
fn is_due(request: &Request, left: u32) -> bool
    ensures { result ≡ (request.now.last || left == 1) }
{
    request.last || left == 1
}

/// How the connection ends behind the request, if it does.
fn ending_behind(request: &Request, left: u32) -> Option<DialogEnd>
    ensures { result ≡ ending_after request.now.last left }
{
    ending_after(request.last, left)
}

impl Dialog {
    /// A connection of which nothing came yet.
    #[tactic(auto, using(crate::proofs::DialogLaws::begins))]
    pub fn new(alloc: Global) -> Dialog
        ensures fresh { result ≡ fresh }
        ensures goes { (number : ℕ) → HasPast number no_past result }
    {
        Dialog {
            input: Input::new(alloc),
            left: REQUESTS,
            output: Output::new(alloc),
            ending: None,
        }
    }

    /// The bytes that are to be written next: all that are due, or a front of them, which isn't empty where
    /// some are due.
    pub fn due(&self) -> &[u8]
        ensures front { result.now ≡ take (length result.now) self.now.due }
        ensures within { length result.now ≤ length self.now.due }
        ensures some { self.now.due ≢ [] → 0 < length result.now }
    {
        self.output.front()
    }

    /// Whether all that was due is written.
    pub fn is_quiet(&self) -> bool
        ensures { MatchBool result (self.now.due ≡ []) (self.now.due ≢ []) }
    {
        self.output.is_empty()
    }

    /// So many of the bytes that were due were written.
    pub fn sent(&mut self, count: usize)
        requires { count ≤ length self.old.due }
        ensures due { self.new.due ≡ drop count self.old.due }
        ensures held { self.new.held ≡ self.old.held }
        ensures left { self.new.left ≡ self.old.left }
        ensures ending { self.new.ending ≡ self.old.ending }
        ensures goes { (number : ℕ) (past : Past) → HasPast number past self.old →
            HasPast number (with_gone (take count self.old.due) past) self.new }
    {
        self.pass(count);
    }

    fn pass(&mut self, count: usize)
        requires { count ≤ length self.old.due }
        ensures due { self.new.due ≡ drop count self.old.due }
        ensures held { self.new.held ≡ self.old.held }
        ensures left { self.new.left ≡ self.old.left }
        ensures ending { self.new.ending ≡ self.old.ending }
    {
        self.output.pass(count);
    }

    /// How many more bytes it can hold. Where it wants to read, one at least.
    pub fn free(&self) -> usize
        ensures { result + length self.now.held ≡ HELD_LIMIT }
    {
        HELD_LIMIT - self.input.len()
    }

    /// These bytes came. After `NoMemory` they are lost, and nothing has changed.
    pub fn take_in(&mut self, piece: &[u8]) -> Result<(), NoMemory>
        requires open { self.old.ending ≡ None }
        requires free { length self.old.held + length piece.now ≤ HELD_LIMIT }
        ensures held { OnOk result (self.new.held ≡ self.old.held ++ piece.now) }
        ensures left { OnOk result (self.new.left ≡ self.old.left) }
        ensures due { OnOk result (self.new.due ≡ self.old.due) }
        ensures ending { OnOk result (self.new.ending ≡ None) }
        ensures err { OnErr result (self.new ≡ self.old) }
        ensures goes { OnOk result ((number : ℕ) (past : Past) → HasPast number past self.old →
            HasPast number (with_piece piece.now past) self.new) }
    {
        self.keep(piece)?;
        Ok(())
    }

    fn keep(&mut self, piece: &[u8]) -> Result<(), NoMemory>
        requires { length self.old.held + length piece.now ≤ HELD_LIMIT }
        ensures held { OnOk result (self.new.held ≡ self.old.held ++ piece.now) }
        ensures left { OnOk result (self.new.left ≡ self.old.left) }
        ensures due { OnOk result (self.new.due ≡ self.old.due) }
        ensures ending { OnOk result (self.new.ending ≡ self.old.ending) }
        ensures err { OnErr result (self.new ≡ self.old) }
    {
        self.input.keep(piece)?;
        Ok(())
    }

    fn end(&mut self, ending: DialogEnd)
        ensures held { self.new.held ≡ self.old.held }
        ensures left { self.new.left ≡ self.old.left }
        ensures due { self.new.due ≡ self.old.due }
        ensures ending { self.new.ending ≡ Some ending }
    {
        self.ending = Some(ending);
    }

    /// Whether no bytes are held.
    fn is_bare(&self) -> bool
        ensures { MatchBool result (self.now.held ≡ []) (self.now.held ≢ []) }
    {
        self.input.len() == 0
    }

    /// No more bytes come.
    pub fn close(&mut self)
        requires open { self.old.ending ≡ None }
        requires waits { Gives self.old.held (Ok None) }
        ensures due { self.new.due ≡ self.old.due }
        ensures held { self.new.held ≡ self.old.held }
        ensures left { self.new.left ≡ self.old.left }
        ensures ends { self.new.ending ≢ None }
        ensures goes { (number : ℕ) (past : Past) → HasPast number past self.old →
            HasPast number (with_end past) self.new }
    {
        if self.is_bare() {
            self.end(DialogEnd::Closed);
            return;
        }
        self.end(DialogEnd::Refused);
    }

    /// Goes on by one step, without reading or writing: it has the next request answered where one is whole,
    /// and says what it wants. Requests that came together are all answered before it wants to read, and
    /// their replies are due together, as long as fewer than `JOINED_LIMIT` bytes are. Memory is asked for
    /// before a request is answered; where there is none, nothing has changed.
    #[tactic(auto, using(crate::proofs::DialogLaws::stays, crate::proofs::DialogLaws::room_due))]
    pub fn advance<H: Serve>(&mut self, alloc: Global, number: u32, serve: &mut H) -> Want
        ensures steps { Steps number self.old self.new (H.served serve.old) (H.served serve.new) }
        ensures read { result ≡ Want.Read → (self.new ≡ self.old) × (self.old.ending ≡ None) ×
            (self.old.due ≡ []) × Gives self.old.held (Ok None) × (length self.old.held < HELD_LIMIT) }
        ensures ended { (ending : DialogEnd) → result ≡ Want.End ending →
            (self.new ≡ self.old) × (self.old.ending ≡ Some ending) × (self.old.due ≡ []) }
        ensures memory { result ≡ Want.Memory →
            (self.new ≡ self.old) × (self.old.ending ≡ None) × (self.old.due ≡ []) }
        ensures served { result ≡ Want.Served →
            (self.old.left ≡ self.new.left + 1) × (room self.new < room self.old) }
        ensures write { result ≡ Want.Write →
            (self.new.left ≡ self.old.left) × (reach self.new < room self.old) }
    {
        match self.ending {
            Some(ending) => self.at_end(ending),
            None => self.go_on(alloc, number, serve),
        }
    }

    fn at_end(&self, ending: DialogEnd) -> Want
        requires { self.now.ending ≡ Some ending }
        ensures { (result ≡ Want.End ending) × (self.now.due ≡ []) ⊎
            (result ≡ Want.Write) × (self.now.due ≢ []) }
    {
        if self.output.is_empty() {
            return Want::End(ending);
        }
        Want::Write
    }

    #[tactic(auto, using(crate::proofs::DialogLaws::stays_by, crate::proofs::DialogLaws::same_dialog, crate::proofs::DialogLaws::served_room, crate::proofs::DialogLaws::room_due, crate::proofs::DialogLaws::room_open))]
    fn go_on<H: Serve>(&mut self, alloc: Global, number: u32, serve: &mut H) -> Want
        requires { self.old.ending ≡ None }
        ensures steps { Steps number self.old self.new (H.served serve.old) (H.served serve.new) }
        ensures read { result ≡ Want.Read → (self.new ≡ self.old) × (self.old.due ≡ []) ×
            Gives self.old.held (Ok None) × (length self.old.held < HELD_LIMIT) }
        ensures ended { (ending : DialogEnd) → result ≡ Want.End ending → ⊥ }
        ensures memory { result ≡ Want.Memory → (self.new ≡ self.old) × (self.old.due ≡ []) }
        ensures served { result ≡ Want.Served →
            (self.old.left ≡ self.new.left + 1) × (room self.new < room self.old) }
        ensures write { result ≡ Want.Write →
            (self.new.left ≡ self.old.left) × (reach self.new < room self.old) }
    {
        if self.output.is_full() {
            return Want::Write;
        }
        match self.input.next(alloc) {
            Ok(Some(request)) => {
                let due = is_due(&request, self.left);
                answer(alloc, number, serve, &request, due, &mut self.output);
                self.ending = ending_behind(&request, self.left);
                self.left -= 1;
                Want::Served
            }
            Ok(None) => {
                if self.output.is_empty() {
                    return Want::Read;
                }
                Want::Write
            }
            Err(HttpFault::NoMemory) => {
                if self.output.is_empty() {
                    return Want::Memory;
                }
                Want::Write
            }
            Err(HttpFault::Bad) => {
                self.output.add_fault(HttpFault::Bad);
                self.ending = Some(DialogEnd::Refused);
                Want::Write
            }
            Err(HttpFault::Large) => {
                self.output.add_fault(HttpFault::Large);
                self.ending = Some(DialogEnd::Refused);
                Want::Write
            }
        }
    }
}
