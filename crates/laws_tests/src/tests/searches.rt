//! The lines of plans. After a failed allocation each test tries once more, so that it passes with any one refused.

ghost use Rattle.notation.specs.Written.{IsEntry};

use corrections::{Book, BookOf};
use notation::{Entry, read_line};
use plans::{Plan, plan_of};
use std::alloc::{AllocError, Global};
use std::process::Abort;

/// Returns the entry of a line.
fn entry(rt: &impl Abort, line: &str) -> Entry
    ensures { IsEntry result }
{
    match read_line(line.as_bytes()) {
        Ok(entry) => entry,
        Err(_) => panic!(rt; "no entry: {line}"),
    }
}

/// Enters a line that the book takes.
fn enter_line(rt: &impl Abort, book: &mut Book, line: &str) {
    assert!(rt; book.len() < 8192);
    let taken = book.enter(&entry(rt, line));
    assert!(rt; taken.is_ok(), "{line}");
}

/// Enters lines that the book takes.
fn enter(rt: &impl Abort, book: &mut Book, lines: &[&str]) {
    for index in 0..lines.len() {
        enter_line(rt, book, lines[index]);
    }
}

/// Checks that the plan has these lines.
fn expect(rt: &impl Abort, plan: &Plan, lines: &[&str]) {
    match plan {
        Plan::Lines(planned) => {
            assert!(rt; planned.len() == lines.len());
            for index in 0..lines.len() {
                assert!(rt;
                    index < planned.len() && planned[index].is_same(&entry(rt, lines[index]))
                );
            }
        }
        _ => panic!(rt; "no plan"),
    }
}

/// Checks that the book of these lines has this plan for the wanted corrections.
fn find(
    rt: &impl Abort,
    alloc: Global,
    lines: &[&str],
    wanted: [&str; 2],
    planned: &[&str],
) -> Result<(), AllocError> {
    let mut book = Book::new(alloc, 2)?;
    enter(rt, &mut book, lines);
    let wanted = [entry(rt, wanted[0]), entry(rt, wanted[1])];
    let plan = plan_of(alloc, 2, &book, &wanted)?;
    expect(rt, &plan, planned);
    Ok(())
}

/// If the runs of only one ball change, the wrong batter is bowled at place 5, who then can't retire at place 7.
const OUT_AND_RETIRED: [&str; 9] = [
    "innings home",
    "in 1",
    "in 2",
    "ball 7 bat 1",
    "ball 7 bat 0",
    "ball 7 bat 0 out bowled striker 0",
    "in 3",
    "gone retiredout 1",
    "in 4",
];

/// A 1 and a 0 that should be 2 and 1.
fn two_runs(rt: &impl Abort, alloc: Global) -> Result<(), AllocError> {
    find(
        rt,
        alloc,
        &OUT_AND_RETIRED,
        ["fix 3 ball 7 bat 2", "fix 4 ball 7 bat 1"],
        &[
            "fix 8 void",
            "fix 7 void",
            "fix 3 ball 7 bat 2",
            "fix 4 ball 7 bat 1",
            "fix 7 gone retiredout 1",
            "fix 8 in 4",
        ],
    )
}

/// A single that was written as no run, and then mended by `swap`.
fn swapped(rt: &impl Abort, alloc: Global) -> Result<(), AllocError> {
    let mut lines = OUT_AND_RETIRED;
    lines[3] = "ball 7 bat 0";
    lines[4] = "swap";
    find(
        rt,
        alloc,
        &lines,
        ["fix 3 ball 7 bat 1", "fix 4 void"],
        &[
            "fix 8 void",
            "fix 7 void",
            "fix 3 ball 7 bat 1",
            "fix 4 void",
            "fix 7 gone retiredout 1",
            "fix 8 in 4",
        ],
    )
}

/// Two bowlers who were exchanged for two overs.
fn exchanged(rt: &impl Abort, alloc: Global) -> Result<(), AllocError> {
    find(
        rt,
        alloc,
        &[
            "innings home",
            "in 1",
            "in 2",
            "ball 7 bat 0",
            "over",
            "ball 8 bat 0",
            "over",
            "ball 9 bat 0",
        ],
        ["fix 3 ball 8 bat 0", "fix 5 ball 7 bat 0"],
        &[
            "fix 6 void",
            "fix 5 void",
            "fix 3 ball 8 bat 0",
            "fix 5 ball 7 bat 0",
            "fix 6 over",
        ],
    )
}

/// A wicket that was left out, with the batter who came in.
fn left_out(rt: &impl Abort, alloc: Global) -> Result<(), AllocError> {
    find(
        rt,
        alloc,
        &[
            "innings home",
            "in 1",
            "in 2",
            "ball 7 bat 0",
            "ball 7 bat 1",
        ],
        ["late 3 ball 7 bat 0 out bowled striker 0", "late 3 in 3"],
        &[
            "fix 4 void",
            "late 3 ball 7 bat 0 out bowled striker 0",
            "late 3 in 3",
            "fix 4 ball 7 bat 1",
        ],
    )
}

/// Corrections that are legal one after another are planned as they are.
fn direct(rt: &impl Abort, alloc: Global) -> Result<(), AllocError> {
    find(
        rt,
        alloc,
        &OUT_AND_RETIRED,
        ["fix 4 ball 7 bat 2", "fix 3 ball 7 bat 3"],
        &["fix 4 ball 7 bat 2", "fix 3 ball 7 bat 3"],
    )
}

#[test]
fn plans(rt: HostRuntime) {
    let alloc = rt.alloc();
    assert!(rt; two_runs(&rt, alloc).is_ok() || two_runs(&rt, alloc).is_ok());
    assert!(rt; swapped(&rt, alloc).is_ok() || swapped(&rt, alloc).is_ok());
    assert!(rt; exchanged(&rt, alloc).is_ok() || exchanged(&rt, alloc).is_ok());
    assert!(rt; left_out(&rt, alloc).is_ok() || left_out(&rt, alloc).is_ok());
    assert!(rt; direct(&rt, alloc).is_ok() || direct(&rt, alloc).is_ok());
}
