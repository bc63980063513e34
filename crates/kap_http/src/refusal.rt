//! Why requests are refused.

ghost use Rattle.std.specs.Prelude.{◌≡◌, ◌≢◌, IfOk, IsTrue, false};
ghost use Rattle.kap_http.specs.ReplyValues.{refuses};
ghost use Rattle.kap_http.specs.Refusals.{refusal_reply, refusal_status, refusal_text};
ghost use Rattle.kap_http.specs.Replies.{error_body, error_reply, out_of_memory};
ghost use Rattle.kap_http.specs.declared.refusal.Refusal.TheVariants.{NoMemory as no_memory};

use crate::reply::Reply;
use kap_base::{Bytes, NoMemory};
use std::alloc::{AllocError, AllocFailed, Global};

/// Why a request is refused.
#[derive(Clone, Copy, Debug, PartialEq, Eq)]
pub enum Refusal {
    /// 400 `db missing`: no database is named, or one with an empty name.
    DbMissing,
    /// 400 `bad name`: the name of a database or a policy has a line feed, or isn't UTF-8.
    BadName,
    /// 400 `bad precision`: the precision is none of `ns n u ms s m h`.
    BadPrecision,
    /// 400 `bad body`: the body doesn't say what is asked of it.
    BadBody,
    /// 400 `too long`: the script has more than 65,536 bytes.
    TooLong,
    /// 404 `not found`: the path leads nowhere, or names no topic.
    NoPath,
    /// 404 `no task`: no task has the id.
    NoTask,
    /// 405 `method not allowed`: the path takes other methods.
    NoMethod,
    /// 409 `exists`: a task has the id.
    Exists,
    /// 409 `too many tasks`: there is no room for another task.
    TooManyTasks,
    /// 500 `store`: the store failed.
    Store,
    /// 503: memory ran out.
    NoMemory,
}

impl From<NoMemory> for Refusal {
    ghost from_gives = { λ _ e. e ≡ no_memory };

    fn from(_: NoMemory) -> Self {
        Refusal::NoMemory
    }
}

impl From<AllocError> for Refusal {
    ghost from_gives = { λ _ e. e ≡ no_memory };

    fn from(_: AllocError) -> Self {
        Refusal::NoMemory
    }
}

impl<T: Drop> From<AllocFailed<T>> for Refusal {
    ghost from_gives = { λ _ e. e ≡ no_memory };

    fn from(_: AllocFailed<T>) -> Self {
        Refusal::NoMemory
    }
}

/// The reply that says that memory ran out. It takes no memory.
fn no_memory_reply(alloc: Global) -> Reply
    ensures { result ≡ out_of_memory false }
{
    Reply {
        status: 503,
        body: Bytes::new(alloc),
        last: false,
    }
}

/// The body of a reply that refuses.
fn error_body(alloc: Global, cause: &[u8]) -> Result<Bytes, NoMemory>
    ensures { IfOk result (λ body. body ≡ error_body cause.now) }
{
    let mut body = Bytes::new(alloc);
    body.append(b"{\"error\":\"")?;
    body.append(cause)?;
    body.append(b"\"}")?;
    Ok(body)
}

/// The reply of a status that refuses, for a cause without quotes, backslashes and control characters; at 503
/// it has no body. It isn't a last one. Where memory runs out it is the reply that says so.
pub fn error_reply(alloc: Global, status: u16, cause: &[u8]) -> Reply
    requires { IsTrue (refuses status) }
    ensures { result ≢ out_of_memory false → result ≡ error_reply status cause.now }
{
    if status == 503 {
        return no_memory_reply(alloc);
    }
    match error_body(alloc, cause) {
        Ok(body) => Reply {
            status,
            body,
            last: false,
        },
        Err(NoMemory) => no_memory_reply(alloc),
    }
}

impl Refusal {
    /// Its status.
    pub fn status(self) -> u16
        ensures { result ≡ refusal_status self }
    {
        match self {
            Refusal::DbMissing
            | Refusal::BadName
            | Refusal::BadPrecision
            | Refusal::BadBody
            | Refusal::TooLong => 400,
            Refusal::NoPath | Refusal::NoTask => 404,
            Refusal::NoMethod => 405,
            Refusal::Exists | Refusal::TooManyTasks => 409,
            Refusal::Store => 500,
            Refusal::NoMemory => 503,
        }
    }

    /// Its text.
    pub fn text(self) -> &'static [u8]
        ensures { result.now ≡ refusal_text self }
    {
        match self {
            Refusal::DbMissing => b"db missing",
            Refusal::BadName => b"bad name",
            Refusal::BadPrecision => b"bad precision",
            Refusal::BadBody => b"bad body",
            Refusal::TooLong => b"too long",
            Refusal::NoPath => b"not found",
            Refusal::NoTask => b"no task",
            Refusal::NoMethod => b"method not allowed",
            Refusal::Exists => b"exists",
            Refusal::TooManyTasks => b"too many tasks",
            Refusal::Store => b"store",
            Refusal::NoMemory => b"no memory",
        }
    }

    /// Its reply, which isn't a last one, or the one that says that memory ran out.
    #[tactic(auto, using(crate::proofs::RefusalLaws::status_refuses))]
    pub fn reply(self, alloc: Global) -> Reply
        ensures { result ≢ out_of_memory false → result ≡ refusal_reply self }
    {
        error_reply(alloc, self.status(), self.text())
    }
}
