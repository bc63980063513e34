//! How a connection ends.

ghost use Rattle.std.specs.Prelude.{◌≡◌};
ghost use Rattle.http_dialog.specs.Endings.{ending_after, of_link};

/// How a connection ended.
#[derive(Clone, Copy, Debug, PartialEq, Eq)]
pub enum LinkEnd {
    /// The input ended between two requests, or behind the reply to one that was the last.
    Closed,
    /// 1,000 requests were answered, and the thousandth wasn't the last.
    Limit,
    /// The bytes hold no request, which was answered by a 400 or a 413, or the input ended inside one.
    Refused,
    /// Reading failed.
    ReadFault,
    /// Writing failed.
    WriteFault,
    /// Memory ran out.
    NoMemory,
}

/// How the requests of a connection end.
#[derive(Clone, Copy, Debug, PartialEq, Eq)]
pub enum DialogEnd {
    /// The input ended between two requests, or behind one that was the last.
    Closed,
    /// 1,000 requests were answered, and the thousandth wasn't the last.
    Limit,
    /// The bytes hold no request, or the input ended inside one.
    Refused,
}

impl DialogEnd {
    /// The same as the end of a connection.
    pub fn of_link(self) -> LinkEnd
        ensures { result ≡ of_link self }
    {
        match self {
            DialogEnd::Closed => LinkEnd::Closed,
            DialogEnd::Limit => LinkEnd::Limit,
            DialogEnd::Refused => LinkEnd::Refused,
        }
    }
}

/// How the connection ends behind a request, if it does: so many further ones are taken, this one among them.
pub(crate) fn ending_after(last: bool, left: u32) -> Option<DialogEnd>
    ensures { result ≡ ending_after last left }
{
    if last {
        return Some(DialogEnd::Closed);
    }
    if left == 1 {
        return Some(DialogEnd::Limit);
    }
    None
}
