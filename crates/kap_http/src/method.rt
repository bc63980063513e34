ghost use Rattle.std.specs.Prelude.{◌≡◌};
ghost use Rattle.kap_http.specs.Routes.{method_of};

/// The methods that are asked of the service (RFC 9110, RFC 5789).
#[derive(Clone, Copy, Debug, PartialEq, Eq)]
pub(crate) enum Method {
    Get,
    Head,
    Post,
    Patch,
    Delete,
    /// Any other.
    Other,
}

/// The method of this name; its letters have their case.
pub(crate) fn method_of(name: &[u8]) -> Method
    ensures { result ≡ method_of name.now }
{
    if name == b"GET".as_slice() {
        Method::Get
    } else if name == b"HEAD".as_slice() {
        Method::Head
    } else if name == b"POST".as_slice() {
        Method::Post
    } else if name == b"PATCH".as_slice() {
        Method::Patch
    } else if name == b"DELETE".as_slice() {
        Method::Delete
    } else {
        Method::Other
    }
}
