//! Replies with a body that was made, and replies without one.

ghost use Rattle.std.specs.Prelude.{◌≡◌, ◌∷◌, ◌++◌, [], false, OnOk};
ghost use Rattle.json.specs.Print.{print};
ghost use Rattle.json.specs.Token.{key, string};
ghost use Rattle.kap_http.specs.Replies.{out_of_memory};
ghost use Rattle.reply_bodies.specs.Bodies.{IsGiven, done_reply};

use json::Writer;
use kap_base::{Bytes, NoMemory};
use kap_http::Reply;
use std::alloc::Global;

/// The reply that says that what was asked for is done. It takes no memory.
pub fn done_reply(alloc: Global) -> Reply
    ensures { result ≡ done_reply }
{
    Reply {
        status: 204,
        body: Bytes::new(alloc),
        last: false,
    }
}

/// The reply that says that memory ran out. It takes no memory.
pub fn no_memory_reply(alloc: Global) -> Reply
    ensures { result ≡ out_of_memory false }
{
    Reply {
        status: 503,
        body: Bytes::new(alloc),
        last: false,
    }
}

/// A writer of a body.
pub(crate) fn new_body(alloc: Global) -> Writer
    ensures before { result.before ≡ [] }
    ensures tokens { result.tokens ≡ [] }
{
    Writer::new(Vec::new(alloc))
}

/// The body that was written.
pub(crate) fn body_of(writer: Writer) -> Bytes
    requires { writer.before ≡ [] }
    ensures { result ≡ print writer.tokens }
{
    Bytes::from_items(writer.into_inner())
}

/// The reply that gives this body, or says that there was no memory for it.
pub(crate) fn given_reply(alloc: Global, body: Result<Bytes, NoMemory>) -> Reply
    ensures { IsGiven body result }
{
    match body {
        Ok(body) => Reply {
            status: 200,
            body,
            last: false,
        },
        Err(NoMemory) => no_memory_reply(alloc),
    }
}

/// Puts a member whose value is a text.
pub(crate) fn put_text(writer: &mut Writer, name: &str, text: &str) -> Result<(), NoMemory>
    ensures tokens { OnOk result (writer.new.tokens
        ≡ writer.old.tokens ++ key name.now ∷ string text.now ∷ []) }
    ensures before { writer.new.before ≡ writer.old.before }
{
    writer.key(name)?;
    writer.string(text)?;
    Ok(())
}
