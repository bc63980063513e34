//! A pattern, which owns what it needs to search.

ghost use Rattle.std.specs.Prelude.{◌≡◌, IfOk};
ghost use Rattle.std.specs.Arc.{arc_value};
ghost use Rattle.regex.specs.Utf8.{MatchesText};
ghost use Rattle.regex_meta.specs.Programs.{pattern_of};
ghost use Rattle.lambda_types.specs.declared.pattern.PatternFault.TheVariants.{NoMemory as no_memory};
ghost use Rattle.lambda_types.specs.Caches.{IsCacheFor};
ghost use Rattle.lambda_types.specs.Refusals.{fault_of};
ghost use Rattle.lambda_types.specs.Matches.{matches, MatchesAsWritten};

use crate::cache::Cache;
use crate::program::program_of;
use kap_base::{Duplicate, NoMemory, SharedText, Text};
use regex_meta::Program;
use std::alloc::{AllocFailed, Global};
use std::marker::Model;
use std::sync::Arc;

/// A pattern: what Rust's crate `regex` reads in a text, by its syntax and default options. It keeps what it
/// needs to search many texts. A copy shares the text and the program, and has a cache of its own. Contracts
/// see it as the text that it was read in.
pub struct Pattern {
    text: SharedText,
    program: Arc<Program, Global>,
    cache: Cache,
    ghost own_cache: { IsCacheFor cache (arc_value program) },
    ghost whole_characters: { MatchesText (pattern_of (arc_value program)) },
    ghost as_written: { MatchesAsWritten (arc_value program) text },
}

impl Model for Pattern {
    ghost use Rattle.std.specs.Prelude.{List, ℕ};

    ghost Value = { List ℕ };

    ghost view = { λ p. p.text };
}

/// Why there is no pattern.
#[derive(Clone, Copy, Debug, PartialEq, Eq)]
pub enum PatternFault {
    /// The text is no pattern, or one that is too large or nested too deeply.
    Refused,
    /// Memory ran out.
    NoMemory,
}

impl From<regex::Error> for PatternFault {
    ghost from_gives = { λ error fault. fault ≡ fault_of error };

    fn from(error: regex::Error) -> PatternFault {
        match error {
            regex::Error::OutOfMemory => PatternFault::NoMemory,
            _ => PatternFault::Refused,
        }
    }
}

impl From<NoMemory> for PatternFault {
    ghost from_gives = { λ _ e. e ≡ no_memory };

    fn from(_: NoMemory) -> PatternFault {
        PatternFault::NoMemory
    }
}

impl<T: Drop> From<AllocFailed<T>> for PatternFault {
    ghost from_gives = { λ _ e. e ≡ no_memory };

    fn from(_: AllocFailed<T>) -> PatternFault {
        PatternFault::NoMemory
    }
}

/// About how many bytes a state of a program takes, with its transitions and with the room that a search
/// needs for it.
const STATE_SIZE: usize = 128;

impl Pattern {
    /// The pattern of a text. `Refused` where `regex` reads none in it.
    pub(crate) fn read(alloc: Global, text: &Text) -> Result<Pattern, PatternFault>
        ensures { IfOk result (λ pattern. pattern ≡ text.now) }
    {
        let program = Arc::new(alloc, program_of(alloc, text.as_str())?)?;
        let cache = Cache::new(alloc, &program)?;
        let text = SharedText::new(alloc, text.copy(alloc)?)?;
        Ok(Pattern {
            text,
            program,
            cache,
        })
    }

    /// About how many bytes its program and the room for a search take: by the number of its states.
    pub(crate) fn size(&self) -> usize {
        let states = self.program.dfa.nfa.states.len();
        states.saturating_mul(STATE_SIZE)
    }

    /// The text that it was read in, without slashes.
    pub fn text(&self) -> &str
        ensures { result.now ≡ self.now }
    {
        self.text.as_str()
    }

    /// Whether it matches anywhere in a text.
    pub fn is_match(&mut self, text: &str) -> bool
        ensures found { result ≡ matches self.old text.now }
        ensures same { self.new ≡ self.old }
    {
        self.cache.is_match(&self.program, text)
    }
}

impl Duplicate for Pattern {
    fn copy(&self, alloc: Global) -> Result<Pattern, NoMemory> {
        let program = Arc::try_clone(&self.program)?;
        let cache = Cache::new(alloc, &program)?;
        let text = self.text.copy(alloc)?;
        Ok(Pattern {
            text,
            program,
            cache,
        })
    }
}

// Written out, so that a caller's proof sees one call and not the drop of each field.
impl Drop for Pattern {
    fn drop(self) {
        let Pattern {
            text: _text,
            program: _program,
            cache: _cache,
        } = self;
    }
}
