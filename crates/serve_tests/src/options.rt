//! What the words of a service give.

use serve_words::{ServeFault, serve_options};
use std::alloc::{AllocError, Global};
use std::test::Fail;

/// The words of a line.
fn words_of(alloc: Global, line: &str) -> Result<Vec<String>, AllocError> {
    let mut words = Vec::new(alloc);
    for word in line.split(' ') {
        words.push(String::from_str(alloc, word)?)?;
    }
    Ok(words)
}

/// Whether the words of a line give these values.
fn gives(
    alloc: Global,
    line: &str,
    addr: &str,
    seats: u32,
    idle: u32,
    single: bool,
) -> Result<bool, AllocError> {
    let words = words_of(alloc, line)?;
    match serve_options(alloc, &words) {
        Ok(options) => Ok(
            options.addr == addr
                && options.seats == seats
                && options.idle == idle
                && options.single == single,
        ),
        Err(_) => Ok(false),
    }
}

/// Whether the words of a line aren't those of a service.
fn is_refused(alloc: Global, line: &str) -> Result<bool, AllocError> {
    let words = words_of(alloc, line)?;
    match serve_options(alloc, &words) {
        Ok(_) => Ok(false),
        Err(fault) => Ok(fault == ServeFault::Usage),
    }
}

#[test]
fn options_give_their_values_in_any_order(rt: HostRuntime) -> Result<(), Fail> {
    let alloc = rt.alloc();
    assert!(rt; gives(alloc, "--addr h:1", "h:1", 4, 30, false)?);
    assert!(rt; gives(alloc, "--addr h:1 --seats 64", "h:1", 64, 30, false)?);
    assert!(rt;
        gives(
            alloc,
            "--seats 1 --idle 3600 --addr h:1",
            "h:1",
            1,
            3_600,
            false
        )?
    );
    assert!(rt;
        gives(
            alloc,
            "--idle 1 --addr [::1]:0 --seats 5",
            "[::1]:0",
            5,
            1,
            false
        )?
    );
    assert!(rt; gives(alloc, "--single --addr h:1", "h:1", 4, 30, true)?);
    assert!(rt; gives(alloc, "--addr h:1 --idle 7 --single", "h:1", 4, 7, true)?);
    assert!(rt; gives(alloc, "--addr seats", "seats", 4, 30, false)?);
    Ok(())
}

#[test]
fn other_words_are_refused(rt: HostRuntime) -> Result<(), Fail> {
    let alloc = rt.alloc();
    for line in [
        "",
        "--seats 4",
        "--addr",
        "--addr -x",
        "--addr h:1 more",
        "--addr h:1 --addr h:2",
        "--addr h:1 --seats 0",
        "--addr h:1 --seats 65",
        "--addr h:1 --seats 04",
        "--addr h:1 --seats +4",
        "--addr h:1 --seats=4",
        "--addr h:1 --idle 0",
        "--addr h:1 --idle 3601",
        "--addr h:1 --idle 030",
        "--addr h:1 --idle 30s",
        "--addr h:1 --idle 30 --idle 30",
        "--addr h:1 --seats 4 --seats 4",
        "--addr h:1 --seats",
        "--addr h:1 --idle",
        "--addr h:1 --single --single",
        "--addr h:1 --single --seats 4",
        "--seats 4 --addr h:1 --single",
        "--addr h:1 --single 1",
        "--addr --single",
        "-addr h:1",
        "--addr h:1 --help",
        "--addr h:1 --",
    ] {
        assert!(rt; is_refused(alloc, line)?);
    }
    Ok(())
}
