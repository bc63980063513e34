//! Names, compared.

ghost use Rattle.std.specs.Prelude.{◌≡◌, bytes_eq};

use kap_base::Text;

/// Whether a name is this one.
pub(crate) fn is_named(name: &Text, text: &str) -> bool
    ensures { result ≡ bytes_eq name.now text.now }
{
    name.as_str() == text
}
