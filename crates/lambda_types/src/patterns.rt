//! What builds the patterns of lambdas.

ghost use Rattle.std.specs.Prelude.{◌≡◌, ◌<◌, ◌+◌, ◌-◌, ◌^◌, [], Contains, IfErr, IfOk, false, is_ok};
ghost use Rattle.kap_base.specs.Words.{HasRisen};
ghost use Rattle.lambda_types.specs.Builds.{AtMostOneMore, Builds};

use crate::pattern::{Pattern, PatternFault};
use kap_base::Text;
use std::alloc::Global;
use std::marker::Model;

/// What builds the patterns of lambdas. It counts its refusals, and keeps the text that it refused last.
pub trait Patterns {
    ghost use Rattle.std.specs.Prelude.{List, ℕ};

    /// How many builds were refused.
    ghost refusals: { Self → ℕ };

    /// The text that was refused last.
    ghost refused: { Self → List ℕ };

    /// The pattern of a text. `Refused` only where the count of refusals rose in this call, by one; the text
    /// refused last is then this one. The count never falls, and stands still where a pattern is built. A
    /// count that stands at its end counts as risen.
    fn build(&mut self, alloc: Global, text: &Text) -> Result<Pattern, PatternFault>
        ensures pattern { IfOk result (λ pattern. pattern ≡ text.now) }
        ensures kept { IfOk result (λ pattern. refusals self.new ≡ refusals self.old) }
        ensures refusal { IfErr result (λ fault. fault ≡ PatternFault.Refused
            → HasRisen (refusals self.old) (refusals self.new) × (refused self.new ≡ text.now)) }
        ensures counted { AtMostOneMore (refusals self.old) (refusals self.new) };
}

/// About how many bytes all patterns that were built may take together. So a script that uses a large pattern
/// again and again is refused, and doesn't take the machine's memory.
const PATTERN_ROOM: usize = 64 << 20;

/// Patterns by `regex`. It numbers its builds from 1, and refuses besides those whose numbers it was given,
/// and those that would take too much beside the ones that it built.
#[derive(Drop)]
pub struct RegexPatterns {
    fails: Vec<u64>,
    room: usize,
    builds: u64,
    refusals: u64,
    refused: Vec<u8>,
}

impl Model for RegexPatterns {
    ghost use Rattle.lambda_types.specs.Builds.{Builds};

    ghost Value = { Builds };

    ghost view = { λ p. record {
      fails = p.fails.items;
      begun = p.builds;
      refusals = p.refusals;
      refused = p.refused.items;
    } };
}

impl RegexPatterns {
    /// Before the first build. The builds with these numbers will be refused. It asks for no memory.
    pub fn new(alloc: Global, fails: Vec<u64>) -> RegexPatterns
        ensures { result ≡ record { fails = fails.items; begun = 0; refusals = 0; refused = [] } }
    {
        RegexPatterns {
            fails,
            room: PATTERN_ROOM,
            builds: 0,
            refusals: 0,
            refused: Vec::new(alloc),
        }
    }

    /// Notes that the text is refused, where there is memory for it.
    fn refuse(&mut self, text: &Text) -> PatternFault
        ensures begun { self.new.begun ≡ self.old.begun }
        ensures fails { self.new.fails ≡ self.old.fails }
        ensures refused { result ≡ PatternFault.Refused
            → HasRisen self.old.refusals self.new.refusals × (self.new.refused ≡ text.now) }
        ensures counted { AtMostOneMore self.old.refusals self.new.refusals }
    {
        self.refused.clear();
        if self.refused.extend_from_slice(text.bytes()).is_err() {
            return PatternFault::NoMemory;
        }
        self.refusals = self.refusals.saturating_add(1);
        PatternFault::Refused
    }
}

impl Patterns for RegexPatterns {
    ghost refusals = { λ patterns. patterns.refusals };

    ghost refused = { λ patterns. patterns.refused };

    fn build(&mut self, alloc: Global, text: &Text) -> Result<Pattern, PatternFault>
        ensures pattern { IfOk result (λ pattern. pattern ≡ text.now) }
        ensures kept { IfOk result (λ pattern. self.new.refusals ≡ self.old.refusals) }
        ensures refusal { IfErr result (λ fault. fault ≡ PatternFault.Refused
            → HasRisen self.old.refusals self.new.refusals × (self.new.refused ≡ text.now)) }
        ensures counted { AtMostOneMore self.old.refusals self.new.refusals }
        ensures fails { self.old.begun < 2 ^ 64 - 1
            → Contains self.old.fails (self.old.begun + 1) → is_ok result ≡ false }
        ensures numbered { self.old.begun < 2 ^ 64 - 1 → self.new.begun ≡ self.old.begun + 1 }
        ensures numbers { self.new.fails ≡ self.old.fails }
    {
        self.builds = self.builds.saturating_add(1);
        if self.fails.contains(&self.builds) {
            return Err(self.refuse(text));
        }
        match Pattern::read(alloc, text) {
            Ok(pattern) => match self.room.checked_sub(pattern.size()) {
                Some(room) => {
                    self.room = room;
                    Ok(pattern)
                }
                None => Err(self.refuse(text)),
            },
            Err(PatternFault::Refused) => Err(self.refuse(text)),
            Err(PatternFault::NoMemory) => Err(PatternFault::NoMemory),
        }
    }
}
