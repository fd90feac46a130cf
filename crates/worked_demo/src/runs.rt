//! Runs of `demo`, whatever lies outside.
use flux_model::{Limits, Silent, Steps};
use flux_outside::{MemShelf, MemSink, MemSource};
use std::alloc::{AllocError, Global};
use std::test::Fail;
use watch_cli::{Status, run};

/// The summary of the number 7: its counts are those of the lines in the report of `bench/indexed.cpp`, and of `bench/joins.cpp`, over
/// the same files.
const SEVEN: &str =
    "demo 7\ngraph 20000 59999\nstar 197 80\nwalk 1283 675\nfork 80 44\nring 0 0\n= 5000 4729 271\n";

/// What stands on standard error where the words have no shape.
const NO_SHAPE: &str = "turboflux: unknown command or wrong arguments\n";

/// A run: the word after `demo`, the seed of the shelf, the room of the output, and how it has to end.
#[derive(Clone, Copy)]
struct Case {
    number: &'static str,
    seed: u64,
    room: usize,
    status: Status,
    out: &'static str,
    err: &'static str,
}

/// The number 7, to its end.
const DONE: Case = Case {
    number: "7",
    seed: 0,
    room: 999,
    status: Status::Done,
    out: SEVEN,
    err: "",
};

/// A word that is no number of a demonstration.
const NO_NUMBER: Case = Case {
    status: Status::Usage,
    out: "",
    err: NO_SHAPE,
    ..DONE
};

/// Twice the same number, over shelves of two seeds.
const SEVENS: [Case; 2] = [
    DONE,
    Case {
        number: "007",
        seed: 9,
        ..DONE
    },
];

/// An output that takes nine bytes.
const NO_ROOM: [Case; 1] = [Case {
    room: 9,
    status: Status::WriteFault,
    out: "demo 7\ngr",
    err: "turboflux: write fault\n",
    ..DONE
}];

const NO_NUMBERS: [Case; 6] = [
    Case {
        number: "18446744073709551616",
        ..NO_NUMBER
    },
    Case {
        number: "000000000000000000007",
        ..NO_NUMBER
    },
    Case {
        number: "",
        ..NO_NUMBER
    },
    Case {
        number: "+7",
        ..NO_NUMBER
    },
    Case {
        number: "7 ",
        ..NO_NUMBER
    },
    Case {
        number: "x",
        ..NO_NUMBER
    },
];

/// Runs `demo` with this word over a shelf and updates of which every read would fail. Limits that are lower than the standard ones
/// change nothing.
fn show(
    alloc: Global,
    number: &str,
    seed: u64,
    out: &mut MemSink,
    err: &mut MemSink,
) -> Result<Status, AllocError> {
    let limits = Limits {
        vertices: 1,
        ..Limits::standard()
    };
    if !limits.fair() {
        return Ok(Status::Memory);
    }
    let mut words = Vec::new(alloc);
    words.push(String::from_str(alloc, "demo")?)?;
    words.push(String::from_str(alloc, number)?)?;
    let mut shelf = MemShelf::with_seed(alloc, seed);
    shelf.fail_at(0)?;
    let mut updates = MemSource::new(alloc, b"e 1 2 r\n", &[], &[0])?;
    let mut steps = Steps::new(Silent);
    let ended = run(
        alloc,
        &words,
        &limits,
        &mut shelf,
        &mut updates,
        out,
        err,
        &mut steps,
    );
    Ok(ended.status)
}

/// Whether the run ends and writes as its case says.
fn is_right(alloc: Global, case: &Case) -> Result<bool, AllocError> {
    let mut out = MemSink::new(alloc, case.room)?;
    let mut err = MemSink::new(alloc, 99)?;
    let status = show(alloc, case.number, case.seed, &mut out, &mut err)?;
    Ok(
        status == case.status
            && *out.bytes() == *case.out.as_bytes()
            && *err.bytes() == *case.err.as_bytes(),
    )
}

/// How many cases, from the first on, are right.
fn count_right(alloc: Global, cases: &[Case]) -> Result<usize, AllocError> {
    for i in 0..cases.len() {
        if !is_right(alloc, &cases[i])? {
            return Ok(i);
        }
    }
    Ok(cases.len())
}

/// Whether the largest number is shown: its summary begins with it, and with the number of vertices.
fn is_largest_shown(alloc: Global) -> Result<bool, AllocError> {
    let mut out = MemSink::new(alloc, 999)?;
    let mut err = MemSink::new(alloc, 99)?;
    let status = show(alloc, "18446744073709551615", 0, &mut out, &mut err)?;
    Ok(
        status == Status::Done
            && out
                .bytes()
                .starts_with(b"demo 18446744073709551615\ngraph 20000 "),
    )
}

#[test]
fn seven_is_shown_twice_the_same(rt: HostRuntime) -> Result<(), Fail> {
    assert_eq!(rt; count_right(rt.alloc(), &SEVENS)?, SEVENS.len());
    Ok(())
}

#[test]
fn a_front_is_shown_where_no_more_is_taken(rt: HostRuntime) -> Result<(), Fail> {
    assert_eq!(rt; count_right(rt.alloc(), &NO_ROOM)?, NO_ROOM.len());
    Ok(())
}

#[test]
fn words_that_are_no_numbers(rt: HostRuntime) -> Result<(), Fail> {
    assert_eq!(rt; count_right(rt.alloc(), &NO_NUMBERS)?, NO_NUMBERS.len());
    Ok(())
}

#[test]
fn the_largest_number_is_shown(rt: HostRuntime) -> Result<(), Fail> {
    assert_eq!(rt; is_largest_shown(rt.alloc())?, true);
    Ok(())
}
