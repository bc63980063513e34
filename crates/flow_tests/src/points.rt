//! Points that are read from lines, and effects as text.

use case_text::point_of;
use kap_base::{Bytes, Effect, NoMemory, Point, Shared, Text, What};
use node_core::Effects;
use std::alloc::Global;
use std::process::Abort;
use std::test::Fail;

/// The point of a line, of database and policy `d`.
fn point(rt: &(impl AllocGlobal + Abort), line: &str) -> Result<Point, Fail> {
    let name = Text::from_str(rt.alloc(), "d")?;
    Ok(point_of(rt.alloc(), line.as_bytes(), &name, &name).map_err(|_| "no point")?)
}

/// Three points, at the times 10, 20 and 30.
pub fn three_points(rt: &(impl AllocGlobal + Abort)) -> Result<Vec<Shared<Point>>, Fail> {
    let mut points = Vec::new(rt.alloc());
    for line in ["m x=1i 10", "m x=1i 20", "m x=1i 30"] {
        points.push(Shared::new(rt.alloc(), point(rt, line)?)?)?;
    }
    Ok(points)
}

/// The time of the point that is logged; 0 of an event.
fn logged(what: &What) -> i64 {
    match what {
        What::Line(point) => point.value().time,
        What::Event(_) => 0,
    }
}

/// Adds an effect: its stamp, life, node and number, and the time of what is logged.
fn put_effect(alloc: Global, effect: &Effect, text: &mut Bytes) -> Result<(), Fail> {
    let (life, node, seq) = (effect.life, effect.node, effect.seq);
    let time = logged(&effect.what);
    let line = format!(in alloc; "{} {}.{}.{} {}\n", effect.stamp.0, life, node, seq, time)?;
    text.append(line.as_bytes())?;
    Ok(())
}

/// Effects, one a line.
fn text_of(alloc: Global, effects: &Effects) -> Result<Bytes, Fail> {
    let mut text = Bytes::new(alloc);
    for effect in effects.as_slice() {
        put_effect(alloc, effect, &mut text)?;
    }
    Ok(text)
}

/// The effects are these, one a line.
pub fn check_effects(
    rt: &(impl AllocGlobal + Abort),
    effects: &Effects,
    due: &str,
) -> Result<(), Fail> {
    let text = text_of(rt.alloc(), effects)?;
    assert_eq!(rt; text.as_slice(), due.as_bytes());
    Ok(())
}
