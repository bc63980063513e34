//! Values that may go to another thread, and copies that share them.

use kap_base::{Duplicate, Expr, Lit, Points, SharedExpr, SharedText, Text, hand_on};
use std::alloc::Global;
use std::process::Abort;
use std::test::Fail;

#[test]
fn texts_are_shared_and_sent(rt: HostRuntime) -> Result<(), Fail> {
    let alloc = rt.alloc();
    let name = SharedText::new(alloc, Text::from_str(alloc, "warn")?)?;
    assert!(rt; hand_on(name.copy(alloc)?) == name);
    assert!(rt; hand_on(Points::new(alloc)).is_empty());
    Ok(())
}

fn number(alloc: Global) -> Result<SharedExpr, Fail> {
    Ok(SharedExpr::new(alloc, Expr::Lit(Lit::Int(1), 0))?)
}

#[test]
fn expressions_are_shared_and_sent(rt: HostRuntime) -> Result<(), Fail> {
    let first = hand_on(number(rt.alloc())?);
    let other = first.copy(rt.alloc())?;
    assert!(rt; *other.expr() == *first.expr());
    Ok(())
}
