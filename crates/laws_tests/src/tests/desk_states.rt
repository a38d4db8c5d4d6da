//! The whole text of a desk's state, over a match with a late delivery, a correction, a batter who is hurt, and a result. After
//! a failed allocation the test tries once more, so that it passes with any one refused.

use super::enter;
use agree_core::{DeskId, Position};
use arrayvec::ArrayString;
use cards::{MatchSheet, read_sheet};
use corrections::Book;
use desk_state::{book_text, state_text};
use notation::{Entry, Plain, Side};
use scoreboard::{LastHeard, board_text};
use std::alloc::{AllocError, Global};
use std::process::Abort;

const SHEET: &str = "\
title = \"A \\\"state\\\"\"
number = 2026
innings = 1
[home]
name = \"Alder\"
players = [\"Ames\", \"Boyd\", \"Carr\", \"Dean\", \"Eves\", \"Ford\", \"Gray\", \"Hill\", \"Ives\", \"King\", \"Lund\"]
[away]
name = \"Birch\"
players = [\"Moss\", \"Nash\", \"Orr\", \"Pike\", \"Quin\", \"Rowe\", \"Sage\", \"Tate\", \"Usher\", \"Vale\", \"Wade\"]
[limits]
overs = 20
overs_a_bowler = 1
";

/// The first part of the state of desk B, at place 18 in round 2, with no vote cast there and no held line.
const BEGIN: &str =
    "{\"format\":\"yermudosh desk 1\",\"match\":\"2026\",\"title\":\"A \\\"state\\\"\",\"desk\":\"b\",\"place\":18,\"round\":2,\"pending\":null,\"held\":[],";

const SIDES: &str =
    ",\"sides\":{\"home\":{\"name\":\"Alder\",\"players\":[\"Ames\",\"Boyd\",\"Carr\",\"Dean\",\"Eves\",\"Ford\",\"Gray\",\"Hill\",\"Ives\",\"King\",\"Lund\"]},\"away\":{\"name\":\"Birch\",\"players\":[\"Moss\",\"Nash\",\"Orr\",\"Pike\",\"Quin\",\"Rowe\",\"Sage\",\"Tate\",\"Usher\",\"Vale\",\"Wade\"]}},\"board\":";

/// Steps of a match: the lines, and what the state says of the next entry and of what is new in the book.
const STEPS: [(&[&str], &str, &str); 5] = [
    (
        &[
            "innings home",
            "in 1",
            "in 2",
            "ball 7 bat 1",
            "ball 7 wide 0",
            "late 3 ball 7 bat 0",
        ],
        "\"wants\":\"ball\",\"may_come_in\":[],\"may_bowl\":[1,2,3,4,5,6,7,8,9,10,11],\"over\":[{\"place\":3,\"mark\":\"1\"},{\"place\":5,\"mark\":\".\"},{\"place\":4,\"mark\":\"1wd\"}]",
        ",\"news\":{\"entries\":6,\"from\":4,\"items\":[{\"place\":5,\"line\":\"ball 7 bat 0\",\"innings\":1,\"over\":1,\"ball\":2,\"batter\":2,\"bowler\":7,\"mark\":\".\",\"by\":null},{\"place\":4,\"line\":\"ball 7 wide 0\",\"innings\":1,\"over\":1,\"ball\":3,\"batter\":2,\"bowler\":7,\"mark\":\"1wd\",\"by\":null}]}",
    ),
    (
        &[
            "ball 7 bat 0 four",
            "ball 7 bat 0 out caught striker 3",
            "in 3",
            "ball 7 bat 0 six",
            "ball 7 bat 2",
        ],
        "\"wants\":\"over\",\"may_come_in\":[],\"may_bowl\":[1,2,3,4,5,6,7,8,9,10,11],\"over\":[{\"place\":3,\"mark\":\"1\"},{\"place\":5,\"mark\":\".\"},{\"place\":4,\"mark\":\"1wd\"},{\"place\":6,\"mark\":\"4\"},{\"place\":7,\"mark\":\"W\"},{\"place\":9,\"mark\":\"6\"},{\"place\":10,\"mark\":\"2\"}]",
        ",\"news\":{\"entries\":11,\"from\":10,\"items\":[{\"place\":10,\"line\":\"ball 7 bat 2\",\"innings\":1,\"over\":1,\"ball\":7,\"batter\":3,\"bowler\":7,\"mark\":\"2\",\"by\":null}]}",
    ),
    (
        &["over", "fix 10 void", "fix 9 ball 7 bye 1"],
        "\"wants\":\"bowler\",\"may_come_in\":[],\"may_bowl\":[1,2,3,4,5,6,8,9,10,11],\"over\":[{\"place\":3,\"mark\":\"1\"},{\"place\":5,\"mark\":\".\"},{\"place\":4,\"mark\":\"1wd\"},{\"place\":6,\"mark\":\"4\"},{\"place\":7,\"mark\":\"W\"},{\"place\":9,\"mark\":\"1b\"}]",
        ",\"news\":{\"entries\":14,\"from\":9,\"items\":[{\"place\":9,\"line\":\"ball 7 bye 1\",\"innings\":1,\"over\":1,\"ball\":6,\"batter\":3,\"bowler\":7,\"mark\":\"1b\",\"by\":13},{\"place\":10,\"line\":\"void\",\"by\":12},{\"place\":11,\"line\":\"over\",\"by\":null}]}",
    ),
    (
        &[
            "ball 8 bat 0",
            "over",
            "gone retiredhurt 3",
            "gone timedout 4",
        ],
        "\"wants\":\"batter\",\"may_come_in\":[3,5,6,7,8,9,10,11],\"may_bowl\":[1,2,3,4,5,6,9,10,11],\"over\":[{\"place\":14,\"mark\":\".\"}]",
        ",\"news\":{\"entries\":18,\"from\":15,\"items\":[{\"place\":17,\"line\":\"gone timedout 4\",\"by\":null}]}",
    ),
    (
        &[
            "end declared",
            "innings away",
            "in 5",
            "in 6",
            "ball 1 bat 0 six",
            "ball 1 bat 0 six",
        ],
        "\"wants\":\"nothing\",\"may_come_in\":[],\"may_bowl\":[],\"over\":[{\"place\":22,\"mark\":\"6\"},{\"place\":23,\"mark\":\"6\"}]",
        ",\"news\":{\"entries\":24,\"from\":21,\"items\":[{\"place\":23,\"line\":\"ball 1 bat 0 six\",\"innings\":2,\"over\":1,\"ball\":2,\"batter\":5,\"bowler\":1,\"mark\":\"6\",\"by\":null}]}",
    ),
];

/// Returns the rest of the text behind this front.
fn behind<'a>(rt: &impl Abort, text: &'a [u8], front: &str) -> &'a [u8] {
    match text.strip_prefix(front.as_bytes()) {
        Some(rest) => rest,
        None => panic!(rt; "it doesn't go on so: {front}"),
    }
}

/// When a board heard the desks. A desk's state has neither that nor what keeps a board from going on.
const HEARD: LastHeard = LastHeard {
    a: Some(7),
    b: None,
};

/// The end of a board's state with those times.
const END: &str = ",\"heard\":{\"a\":7,\"b\":null},\"trouble\":null}\n";

/// Checks that the text begins with these parts, of what comes next and what is new, and then has both sides and the board's
/// state.
fn expect_state(rt: &impl Abort, text: &[u8], begin: &str, next: &str, news: &str, board: &[u8]) {
    let mut left = text;
    for front in [begin, next, news, SIDES] {
        left = behind(rt, left, front);
    }
    assert!(rt; left.ends_with(b"}}\n"), "{next}");
    assert!(rt;
        left.strip_suffix(b"}}\n") == board.strip_suffix(END.as_bytes()),
        "{next}"
    );
}

/// The whole book after the first step.
const FIRST_BOOK: &str =
    "{\"entries\":6,\"items\":[{\"place\":0,\"line\":\"innings home\",\"by\":null},{\"place\":1,\"line\":\"in 1\",\"by\":null},{\"place\":2,\"line\":\"in 2\",\"by\":null},{\"place\":3,\"line\":\"ball 7 bat 1\",\"innings\":1,\"over\":1,\"ball\":1,\"batter\":1,\"bowler\":7,\"mark\":\"1\",\"by\":null},{\"place\":5,\"line\":\"ball 7 bat 0\",\"innings\":1,\"over\":1,\"ball\":2,\"batter\":2,\"bowler\":7,\"mark\":\".\",\"by\":null},{\"place\":4,\"line\":\"ball 7 wide 0\",\"innings\":1,\"over\":1,\"ball\":3,\"batter\":2,\"bowler\":7,\"mark\":\"1wd\",\"by\":null}]}\n";

/// Checks that text, as anyone is given it.
fn stands(rt: &impl Abort, alloc: Global) -> Result<(), AllocError> {
    let mut book = Book::new(alloc, 1)?;
    let (lines, _, _) = STEPS[0];
    enter(rt, &mut book, lines);
    let text = book_text(alloc, &book)?;
    assert!(rt; text.as_slice() == FIRST_BOOK.as_bytes());
    Ok(())
}

/// Checks the state after each step, at a desk that has cast no vote.
fn follow(rt: &impl Abort, alloc: Global, sheet: &MatchSheet) -> Result<(), AllocError> {
    let mut book = Book::new(alloc, 1)?;
    for (lines, next, news) in &STEPS {
        enter(rt, &mut book, lines);
        let at = Position {
            place: 18,
            round: 2,
        };
        let board = board_text(alloc, sheet, &book, HEARD, None)?;
        let text = state_text(alloc, sheet, &book, DeskId::B, at, None, &[])?;
        expect_state(rt, text.as_slice(), BEGIN, next, news, board.as_slice());
    }
    Ok(())
}

/// Checks the state of desk A, which has cast its first vote and holds three lines.
fn wait(rt: &impl Abort, alloc: Global, sheet: &MatchSheet) -> Result<(), AllocError> {
    let book = Book::new(alloc, 1)?;
    let own = Some(Entry::Write(Plain::Innings(Side::Home)));
    let mut held = [ArrayString::new(); 3];
    held[0].push_str("in 1");
    held[1].push_str("in \"2\"");
    held[2].push_str("\\");
    let text = state_text(alloc, sheet, &book, DeskId::A, Position::FIRST, own, &held)?;
    let begin =
        "{\"format\":\"yermudosh desk 1\",\"match\":\"2026\",\"title\":\"A \\\"state\\\"\",\"desk\":\"a\",\"place\":0,\"round\":0,\"pending\":\"innings home\",\"held\":[\"in 1\",\"in \\\"2\\\"\",\"\\\\\"],";
    let next = "\"wants\":\"innings\",\"may_come_in\":[],\"may_bowl\":[],\"over\":[]";
    let news = ",\"news\":{\"entries\":0,\"from\":0,\"items\":[]}";
    let board = board_text(alloc, sheet, &book, HEARD, None)?;
    expect_state(rt, text.as_slice(), begin, next, news, board.as_slice());
    Ok(())
}

/// Checks all states, by the sheet; returns `None` if memory was refused.
fn all(rt: &impl Abort, alloc: Global) -> Option<()> {
    let sheet = match read_sheet(alloc, SHEET.as_bytes()) {
        Ok(sheet) => sheet,
        Err(_) => return None,
    };
    follow(rt, alloc, &sheet).ok()?;
    stands(rt, alloc).ok()?;
    wait(rt, alloc, &sheet).ok()
}

#[test]
fn desk_states(rt: HostRuntime) {
    let alloc = rt.alloc();
    assert!(rt; all(&rt, alloc).is_some() || all(&rt, alloc).is_some());
}
