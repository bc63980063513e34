//! Transitions as bytes.

ghost use Rattle.std.specs.Prelude.{◌≡◌, ◌-◌, ◌^◌, ◌++◌, OnOk, length, min, take};
ghost use Rattle.state_code.specs.Places.{ReadsOrNot};
ghost use Rattle.state_code.specs.Levels.{spell_level};
ghost use Rattle.state_code.specs.Spelling.{FitsList, read_list, read_many, spell_list, spell_pair};
ghost use Rattle.store_records.specs.Transitions.{FitsNamed, FitsSaid, FitsTransition, parts_of, read_transition, spell_named, spell_said, spell_transition};

use crate::rec::Transitions;
use kap_base::{Bytes, Level, NoMemory};
use state_code::{CodeFault, Cursor, Spelled, put_i64, put_text, put_u32, put_u64};
use std::alloc::Global;
use topic_core::Transition;

fn put_named(transition: &Transition, to: &mut Bytes) -> Result<(), NoMemory>
    ensures bytes { OnOk result (to.new ≡ to.old ++ spell_named (parts_of transition.now).0) }
    ensures fits { OnOk result (FitsNamed (parts_of transition.now).0) }
    ensures before { take (length to.old) to.new ≡ to.old }
{
    put_u64(to, transition.number)?;
    put_text(to, &transition.topic)?;
    put_text(to, &transition.id)
}

fn put_said(transition: &Transition, to: &mut Bytes) -> Result<(), NoMemory>
    ensures bytes { OnOk result (to.new ≡ to.old ++ spell_said (parts_of transition.now).1.1) }
    ensures fits { OnOk result (FitsSaid (parts_of transition.now).1.1) }
    ensures before { take (length to.old) to.new ≡ to.old }
{
    put_i64(to, transition.time)?;
    put_text(to, &transition.message)
}

fn put_levels(transition: &Transition, to: &mut Bytes) -> Result<(), NoMemory>
    ensures bytes { OnOk result (to.new
        ≡ to.old ++ spell_pair spell_level spell_level (parts_of transition.now).1.0) }
    ensures before { take (length to.old) to.new ≡ to.old }
{
    transition.old_level.append_spelling(to)?;
    transition.new_level.append_spelling(to)
}

fn put_transition(transition: &Transition, to: &mut Bytes) -> Result<(), NoMemory>
    ensures bytes { OnOk result (to.new ≡ to.old ++ spell_transition transition.now) }
    ensures fits { OnOk result (FitsTransition transition.now) }
    ensures before { take (length to.old) to.new ≡ to.old }
{
    put_named(transition, to)?;
    put_levels(transition, to)?;
    put_said(transition, to)
}

/// How many bytes a transition takes in the body of a record; more than 2^64 - 1 are told as so many.
#[tactic(auto, using(crate::proofs::SizeLaws::transition_size))]
pub fn spelled_len(transition: &Transition) -> u64
    ensures { result ≡ min (length (spell_transition transition.now)) (2 ^ 64 - 1) }
{
    let topic = transition.topic.bytes().len() as u64;
    let id = transition.id.bytes().len() as u64;
    let message = transition.message.bytes().len() as u64;
    let texts = id.saturating_add(message);
    topic.saturating_add(texts).saturating_add(30)
}

fn read_transition(alloc: Global, from: &mut Cursor) -> Result<Transition, CodeFault>
    ensures { ReadsOrNot read_transition from.old from.new result }
{
    let number = from.u64()?;
    let topic = from.text(alloc)?;
    let id = from.text(alloc)?;
    let old_level = <Level as Spelled>::read_spelling(alloc, from)?;
    let new_level = <Level as Spelled>::read_spelling(alloc, from)?;
    let time = from.i64()?;
    let message = from.text(alloc)?;
    Ok(Transition {
        number,
        topic,
        id,
        old_level,
        new_level,
        time,
        message,
    })
}

/// Appends the number of transitions, and the transitions.
pub(crate) fn put_transitions(transitions: &[Transition], to: &mut Bytes) -> Result<(), NoMemory>
    ensures bytes { OnOk result (to.new ≡ to.old ++ spell_list spell_transition transitions.now) }
    ensures fits { OnOk result (FitsList FitsTransition transitions.now) }
    ensures before { take (length to.old) to.new ≡ to.old }
{
    let Ok(count) = u32::try_from(transitions.len()) else {
        return Err(NoMemory);
    };
    put_u32(to, count)?;
    'putting: for transition in transitions {
        put_transition(transition, to)?;
    }
    Ok(())
}

fn read_many(alloc: Global, count: u32, from: &mut Cursor) -> Result<Transitions, CodeFault>
    ensures { ReadsOrNot (read_many read_transition count) from.old from.new result }
{
    let mut transitions = Transitions::new(alloc);
    'reading: for _ in 0..count {
        let transition = read_transition(alloc, from)?;
        transitions.push(transition)?;
    }
    Ok(transitions)
}

/// Reads a number, and so many transitions.
pub(crate) fn read_transitions(alloc: Global, from: &mut Cursor) -> Result<Transitions, CodeFault>
    ensures { ReadsOrNot (read_list read_transition) from.old from.new result }
{
    let count = from.u32()?;
    read_many(alloc, count, from)
}
