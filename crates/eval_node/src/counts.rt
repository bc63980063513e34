//! How often each lambda was evaluated in a group.

ghost use Rattle.std.specs.Prelude.{◌≡◌, ◌<◌, ◌≤◌, ◌^◌, ◌∷◌, ◌++◌, [], OnOk, drop, take, vec_len};
ghost use Rattle.state_code.specs.Laws.{list_spelled, u64_spelled};
ghost use Rattle.std.specs.Int.{w64};
ghost use Rattle.state_code.specs.Spelling.{FitsList, read_list, read_number, spell_list, spell_number};
ghost use Rattle.eval_node.specs.Evaluations.{first_count, other_counts};

use kap_base::{Bytes, ItemList, NoMemory};
use state_code::{CodeFault, Cursor, Spelled, put_items};
use std::alloc::Global;
use std::marker::Model;

/// How often each lambda was evaluated in a group, in their order. A number that is missing is 0.
#[derive(Debug, Drop)]
pub struct Counts {
    pub(crate) numbers: Vec<u64>,
}

impl Model for Counts {
    ghost use Rattle.std.specs.Prelude.{List, ℕ};

    ghost Value = { List ℕ };

    ghost view = { λ c. c.numbers.items };
}

impl Counts {
    /// Those of a group without points.
    pub fn new(alloc: Global) -> Counts
        ensures { result ≡ [] }
    {
        Counts {
            numbers: Vec::new(alloc),
        }
    }
}

/// How many numbers there are, and the numbers.
impl Spelled for Counts {
    ghost fits = { FitsList (λ n. n < 2 ^ 64) };

    ghost spell = { spell_list (spell_number w64) };

    ghost read = { read_list (read_number w64) };

    ghost spelled = { list_spelled u64_spelled };

    fn append_spelling(&self, to: &mut Bytes) -> Result<(), NoMemory> {
        put_items(&self.numbers, to)
    }

    fn read_spelling(alloc: Global, from: &mut Cursor) -> Result<Counts, CodeFault> {
        match ItemList::<u64>::read_spelling(alloc, from) {
            Ok(numbers) => Ok(Counts {
                numbers: numbers.into_items(),
            }),
            Err(fault) => Err(fault),
        }
    }
}

/// The number at a place.
pub(crate) fn count_at(numbers: &[u64], place: usize) -> u64
    ensures { result ≡ first_count (drop place numbers.now) }
{
    match numbers.get(place) {
        Some(number) => *number,
        None => 0,
    }
}

/// Puts a number at a place. The numbers before it are there.
pub(crate) fn put_count(numbers: &mut Vec<u64>, place: usize, number: u64) -> Result<(), NoMemory>
    requires { place ≤ vec_len numbers.old }
    ensures { OnOk result (numbers.new.items
        ≡ take place numbers.old.items ++ number ∷ other_counts (drop place numbers.old.items)) }
{
    if place < numbers.len() {
        numbers[place] = number;
    } else {
        numbers.push(number)?;
    }
    Ok(())
}
