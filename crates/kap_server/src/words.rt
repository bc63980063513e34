//! The words of a command line.

ghost use Rattle.std.specs.Prelude.{◌≡◌, IfSome, IsTrue, map, string_bytes};
ghost use Rattle.std.specs.Option.{option_map};
ghost use Rattle.kap_base.specs.Texts.{has_line_feed, is_task_id};
ghost use Rattle.kap_server.specs.Options.{AreWithinLimits, AreWriteLimits};
ghost use Rattle.kap_server.specs.Words.{IsWithinLimits, are_pairs, change_in, change_request, define_request, gen_request, id_in, is_database, is_option, replay_request, request_alone, request_in, request_of, request_of_pairs, write_request, write_to};

use crate::options::{
    ReplayOptions, WriteOptions, no_options, no_write_options, number_within, with_counts,
    with_value, with_write_value,
};
use kap_base::is_task_id;
use line_points::LINE_LIMIT;
use sample_points::SAMPLE_LIMIT;

/// A list of what a store holds.
#[derive(Clone, Copy)]
pub(crate) enum Listing {
    /// Its tasks.
    Tasks,
    /// The topics of its transitions.
    Topics,
    /// Its transitions.
    Alerts,
    /// Its points.
    Export,
}

/// A change of a task that a store has.
#[derive(Clone, Copy)]
pub(crate) enum Change {
    /// It is enabled.
    Enable,
    /// It is disabled.
    Disable,
    /// It is deleted.
    Delete,
}

/// What the words of a command line ask for.
#[derive(Clone, Copy)]
pub(crate) enum Request<'a> {
    /// To check the script that the input gives.
    Check,
    /// To replay the recording that the input gives, for the tasks of these words, each an id and a script
    /// behind it, so as the options say.
    Replay {
        options: ReplayOptions,
        words: &'a [String],
    },
    /// To write the sample recording of so many points.
    Generate {
        count: u32,
    },
    /// To write the summary of a replay of it, for the tasks of these words.
    Summarize {
        count: u32,
        words: &'a [String],
    },
    /// To make a store.
    Init,
    /// To list what a store holds.
    Show(Listing),
    /// To define a task with this id by the script that the input gives.
    Define {
        id: &'a str,
    },
    /// To change the task with this id.
    Change {
        change: Change,
        id: &'a str,
    },
    /// To write the points of the lines that the input gives, to this database and policy.
    Write {
        options: WriteOptions,
        db: &'a str,
        rp: &'a str,
    },
    /// To compact the store.
    Compact,
}

fn is_option(word: &[u8]) -> bool
    ensures { result ≡ is_option word.now }
{
    match word {
        [b'-', b'-', ..] => true,
        _ => false,
    }
}

/// Whether the words are ids, each with a script behind it.
fn are_pairs(words: &[String]) -> bool
    ensures { result ≡ are_pairs (map string_bytes words.now) }
{
    let mut rest = words;
    'pairing: loop {
        match rest {
            [] => return true,
            [_] => return false,
            [id, _, others @ ..] => {
                if !is_task_id(id.as_bytes()) {
                    return false;
                }
                rest = others;
            }
        }
    }
}

/// To replay the recording for the tasks of the words, where they are ids and scripts.
fn request_of_pairs(options: ReplayOptions, words: &[String]) -> Option<Request<'_>>
    ensures request { option_map request_of result
        ≡ request_of_pairs options (map string_bytes words.now) }
    ensures limits { AreWithinLimits options → IfSome result IsWithinLimits }
{
    if !are_pairs(words) {
        return None;
    }
    Some(Request::Replay { options, words })
}

/// The same behind further options, each at most once.
fn replay_request(options: ReplayOptions, words: &[String]) -> Option<Request<'_>>
    ensures request { option_map request_of result
        ≡ replay_request options (map string_bytes words.now) }
    ensures limits { AreWithinLimits options → IfSome result IsWithinLimits }
{
    let (word, rest) = words.split_first()?;
    if !is_option(word.as_bytes()) {
        return request_of_pairs(options, words);
    }
    let (value, behind) = rest.split_first()?;
    if word.as_str() == "--counts" {
        return replay_request(with_counts(options)?, rest);
    }
    replay_request(with_value(options, word.as_str(), value.as_str())?, behind)
}

/// To write the sample recording of so many points, or the summary of its replay for the tasks of the words
/// behind the number.
fn gen_request(words: &[String]) -> Option<Request<'_>>
    ensures request { option_map request_of result ≡ gen_request (map string_bytes words.now) }
    ensures limits { IfSome result IsWithinLimits }
{
    let (word, rest) = words.split_first()?;
    let count = number_within(1, SAMPLE_LIMIT as u32, word.as_str())?;
    if rest.is_empty() {
        return Some(Request::Generate { count });
    }
    if !are_pairs(rest) {
        return None;
    }
    Some(Request::Summarize { count, words: rest })
}

/// This request, where no words stand behind its command.
fn request_alone<'a>(request: Request<'a>, words: &[String]) -> Option<Request<'a>>
    ensures request { option_map request_of result
        ≡ request_alone (request_of request.entry) (map string_bytes words.now) }
    ensures limits { IsWithinLimits request.entry → IfSome result IsWithinLimits }
{
    if words.is_empty() {
        Some(request)
    } else {
        None
    }
}

/// The id of a task, where it is the only word. No word that begins as an option does is one here.
fn id_in(words: &[String]) -> Option<&str>
    ensures id { option_map (λ id. id.now) result ≡ id_in (map string_bytes words.now) }
    ensures valid { IfSome result (λ id. IsTrue (is_task_id id.now)) }
{
    let (id, rest) = words.split_first()?;
    if !rest.is_empty() || is_option(id.as_bytes()) || !is_task_id(id.as_bytes()) {
        return None;
    }
    Some(id.as_str())
}

/// To define the task that is the only word.
fn define_request(words: &[String]) -> Option<Request<'_>>
    ensures request { option_map request_of result ≡ define_request (map string_bytes words.now) }
    ensures limits { IfSome result IsWithinLimits }
{
    let id = id_in(words)?;
    Some(Request::Define { id })
}

/// To change it.
fn change_request(change: Change, words: &[String]) -> Option<Request<'_>>
    ensures request { option_map request_of result
        ≡ change_request change (map string_bytes words.now) }
    ensures limits { IfSome result IsWithinLimits }
{
    let id = id_in(words)?;
    Some(Request::Change { change, id })
}

fn has_line_feed(word: &[u8]) -> bool
    ensures { result ≡ has_line_feed word.now }
{
    word.iter().any(|b| *b == b'\n')
}

/// Whether a word can be a database, or a policy.
fn is_database(word: &[u8]) -> bool
    ensures { result ≡ is_database word.now }
{
    word.len() <= LINE_LIMIT && !has_line_feed(word)
}

/// To write points to this database and policy, where no words stand behind them.
fn write_to<'a>(
    options: WriteOptions,
    db: &'a str,
    rp: &'a str,
    words: &[String],
) -> Option<Request<'a>>
    ensures request { option_map request_of result
        ≡ write_to options db.now rp.now (map string_bytes words.now) }
    ensures limits { AreWriteLimits options → IfSome result IsWithinLimits }
{
    if !words.is_empty() || !is_database(db.as_bytes()) || !is_database(rp.as_bytes()) {
        return None;
    }
    Some(Request::Write { options, db, rp })
}

/// The same behind further options, each at most once.
fn write_request(options: WriteOptions, words: &[String]) -> Option<Request<'_>>
    ensures request { option_map request_of result
        ≡ write_request options (map string_bytes words.now) }
    ensures limits { AreWriteLimits options → IfSome result IsWithinLimits }
{
    let (word, rest) = words.split_first()?;
    let (value, behind) = rest.split_first()?;
    if !is_option(word.as_bytes()) {
        return write_to(options, word.as_str(), value.as_str(), behind);
    }
    write_request(
        with_write_value(options, word.as_str(), value.as_str())?,
        behind,
    )
}

/// The request of a command that changes a store.
fn change_in<'a>(command: &str, words: &'a [String]) -> Option<Request<'a>>
    ensures request { option_map request_of result
        ≡ change_in command.now (map string_bytes words.now) }
    ensures limits { IfSome result IsWithinLimits }
{
    if command == "define" {
        define_request(words)
    } else if command == "enable" {
        change_request(Change::Enable, words)
    } else if command == "disable" {
        change_request(Change::Disable, words)
    } else if command == "delete" {
        change_request(Change::Delete, words)
    } else if command == "write" {
        write_request(no_write_options(), words)
    } else if command == "compact" {
        request_alone(Request::Compact, words)
    } else {
        None
    }
}

/// What the words of the command line ask for.
pub(crate) fn request_in(words: &[String]) -> Option<Request<'_>>
    ensures request { option_map request_of result ≡ request_in (map string_bytes words.now) }
    ensures limits { IfSome result IsWithinLimits }
{
    let (command, rest) = words.split_first()?;
    if command.as_str() == "check" {
        request_alone(Request::Check, rest)
    } else if command.as_str() == "replay" {
        replay_request(no_options(), rest)
    } else if command.as_str() == "gen" {
        gen_request(rest)
    } else if command.as_str() == "init" {
        request_alone(Request::Init, rest)
    } else if command.as_str() == "tasks" {
        request_alone(Request::Show(Listing::Tasks), rest)
    } else if command.as_str() == "topics" {
        request_alone(Request::Show(Listing::Topics), rest)
    } else if command.as_str() == "alerts" {
        request_alone(Request::Show(Listing::Alerts), rest)
    } else if command.as_str() == "export" {
        request_alone(Request::Show(Listing::Export), rest)
    } else {
        change_in(command.as_str(), rest)
    }
}
