//! The place before a command.

ghost use Rattle.std.specs.Prelude.{◌≡◌, map, string_bytes};
ghost use Rattle.std.specs.Option.{option_map};
ghost use Rattle.kapd.specs.Places.{place_in, place_of};

/// Where the store lies.
#[derive(Clone, Copy)]
pub enum Place<'a> {
    /// On a disk in memory, which is empty, and gone behind the command.
    Memory,
    /// In the folder of this path.
    Folder(&'a str),
}

/// The place that the words begin with, and the words behind it. An empty word is none.
pub fn place_in(words: &[String]) -> Option<(Place<'_>, &[String])>
    ensures { option_map (λ found. (place_of found.0, map string_bytes found.1.now)) result
        ≡ place_in (map string_bytes words.now) }
{
    let (place, rest) = words.split_first()?;
    if place.is_empty() {
        return None;
    }
    if place.as_str() == "-" {
        return Some((Place::Memory, rest));
    }
    Some((Place::Folder(place.as_str()), rest))
}
