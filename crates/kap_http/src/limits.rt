//! Limits of requests.

ghost use Rattle.std.specs.Prelude.{◌≡◌, ◌^◌, ◌*◌};

/// How many bytes a head may have, its empty line among them. A target has no more.
pub const HEAD_LIMIT: usize = 16_384;

/// How many fields a head may have.
pub const FIELD_LIMIT: usize = 64;

/// How many bytes the body of a request may have where points are written: 8 MiB.
pub const WRITE_LIMIT: u64 = 8_388_608;

/// How many bytes the body of any other request may have: 1 MiB.
pub const BODY_LIMIT: u64 = 1_048_576;

/// The limits as numbers: bytes of a head, its fields, and bytes of bodies.
pub fn limits_are_numbers()
    ensures head { HEAD_LIMIT ≡ 2 ^ 14 }
    ensures fields { FIELD_LIMIT ≡ 64 }
    ensures writes { WRITE_LIMIT ≡ 8 * 2 ^ 20 }
    ensures bodies { BODY_LIMIT ≡ 2 ^ 20 }
{}
