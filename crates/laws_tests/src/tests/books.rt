//! Copies of both kinds of book, the number of steps of a check, and commands that both kinds answer alike. After a failed
//! allocation each test tries once more, so that it passes with any one refused.

use super::enter;
use corrections::{Book, BookOf, CheckedBook};
use match_laws::Match;
use notation::{Side, read_line};
use std::alloc::{AllocError, Global};
use std::process::Abort;

const FOUR_BALLS: [&str; 7] = [
    "innings home",
    "in 1",
    "in 2",
    "ball 7 bat 1",
    "ball 7 bat 0",
    "ball 7 bat 1",
    "ball 7 bat 0 four",
];

/// Returns how many entries a book has, and the home side's total.
fn standing<B: BookOf>(book: &B) -> (u32, u32) {
    (book.len(), home_total(book.score()))
}

fn home_total(score: &Match) -> u32 {
    score.side_total(Side::Home)
}

/// Corrects the single at place 3 to a two, in the book and not in its copy.
fn correct<B: BookOf>(rt: &impl Abort, book: &mut B, copy: &B) {
    enter(rt, book, &["fix 3 ball 7 bat 2"]);
    assert!(rt; standing(book) == (8, 7) && standing(copy) == (7, 6));
}

fn copy_a_book(rt: &impl Abort, alloc: Global) -> Result<(), AllocError> {
    let mut book = Book::new(alloc, 2)?;
    enter(rt, &mut book, &FOUR_BALLS);
    let copy = book.copy()?;
    correct(rt, &mut book, &copy);
    Ok(())
}

fn copy_a_checked_book(rt: &impl Abort, alloc: Global) -> Result<(), AllocError> {
    let mut book = CheckedBook::new(alloc, 2)?;
    enter(rt, &mut book, &FOUR_BALLS);
    let copy = book.copy()?;
    correct(rt, &mut book, &copy);
    Ok(())
}

#[test]
fn copies(rt: HostRuntime) {
    let alloc = rt.alloc();
    assert!(rt; copy_a_book(&rt, alloc).is_ok() || copy_a_book(&rt, alloc).is_ok());
    assert!(rt; copy_a_checked_book(&rt, alloc).is_ok() || copy_a_checked_book(&rt, alloc).is_ok());
}

/// How many steps each check makes after 500 plain places; the last checkpoint is that of place 448.
const STEPS: [(&str, u32); 9] = [
    ("penalty away 41 3", 1),
    ("void", 0),
    ("fix 499 swap", 52),
    ("fix 499 penalty away 41 3", 52),
    ("fix 0 penalty away 41 3", 500),
    ("late 499 penalty away 41 3", 53),
    ("late 0 penalty away 41 3", 501),
    ("fix 500 void", 0),
    ("late 500 void", 0),
];

/// How many steps each check makes after a late entry at place 500, which belongs to place 3.
const STEPS_OF_A_LATE_ENTRY: [(&str, u32); 2] = [
    ("fix 500 penalty home 41 3", 501),
    ("late 500 void", 0),
];

fn expect_steps(rt: &impl Abort, book: &CheckedBook, rows: &[(&str, u32)]) {
    for (line, steps) in rows {
        match read_line(line.as_bytes()) {
            Ok(entry) => assert!(rt; book.check_counted(&entry).1 == *steps, "{line}"),
            Err(_) => panic!(rt; "no entry: {line}"),
        }
    }
}

fn count_steps(rt: &impl Abort, alloc: Global) -> Result<(), AllocError> {
    let mut book = CheckedBook::new(alloc, 2)?;
    for _ in 0..500 {
        enter(rt, &mut book, &["penalty home 41 3"]);
    }
    expect_steps(rt, &book, &STEPS);
    enter(rt, &mut book, &["late 3 penalty away 41 3"]);
    expect_steps(rt, &book, &STEPS_OF_A_LATE_ENTRY);
    Ok(())
}

#[test]
fn steps_of_a_check(rt: HostRuntime) {
    let alloc = rt.alloc();
    assert!(rt; count_steps(&rt, alloc).is_ok() || count_steps(&rt, alloc).is_ok());
}

/// What follows the bowler in a delivery, whether or not the ball counts.
const DELIVERIES: [&str; 8] = [
    "bat 0",
    "bat 1",
    "bat 2",
    "bat 3",
    "bat 0 four",
    "nb 1",
    "wide 0",
    "bye 1",
];

const OTHERS: [&str; 3] = ["swap", "void", "penalty away 41 3"];

const OPENED: [&str; 3] = ["innings home", "in 1", "in 2"];

/// Returns a delivery of this bowler, or, three times in eleven, another item.
fn item(alloc: Global, bowler: u32, dice: u32) -> Result<String, AllocError> {
    let kind = (dice % 11) as usize;
    if kind < 8 {
        let delivery = DELIVERIES[kind];
        format!(in alloc; "ball {bowler} {delivery}")
    } else {
        String::from_str(alloc, OTHERS[kind - 8])
    }
}

/// What was entered so far: who bowled at each place, and how many overs ended. Four bowlers take the overs in turn.
#[derive(Drop)]
struct Course {
    bowlers: Vec<u32>,
    overs: u32,
    /// Whether the last delivery was refused, because the over had its six balls.
    is_over: bool,
}

/// The kind of a command, by the command's number.
#[derive(Clone, Copy)]
enum Aim {
    Item,
    /// A correction of, or a late entry at, place 63, 64 or 65.
    FixNear,
    LateNear,
    FixAny,
    LateAny,
}

fn aim_of(number: u32) -> Aim {
    match number % 25 {
        4 => Aim::FixNear,
        7 => Aim::LateNear,
        11 | 19 => Aim::FixAny,
        15 | 23 => Aim::LateAny,
        _ => Aim::Item,
    }
}

impl Course {
    fn new(alloc: Global) -> Course {
        Course {
            bowlers: Vec::new(alloc),
            overs: 0,
            is_over: false,
        }
    }

    /// Returns who bowls now.
    fn bowler(&self) -> u32 {
        7 + self.overs % 4
    }

    /// Returns an item for an earlier place, by the bowler of that place.
    fn item_at(&self, alloc: Global, place: u32, dice: u32) -> Result<String, AllocError> {
        let bowler = match self.bowlers.get(place as usize) {
            Some(bowler) => *bowler,
            None => 7,
        };
        item(alloc, bowler, dice)
    }

    /// Returns a command: first the opening; then, of 500 commands, 60 are corrections and 60 late entries, a third of each at
    /// the places 63 to 65.
    fn command(&self, alloc: Global, number: u32, dice: u32) -> Result<String, AllocError> {
        if number < 3 {
            return String::from_str(alloc, OPENED[number as usize]);
        }
        let near = 63 + number / 25 % 3;
        let any = dice / 11 % ((self.bowlers.len() % 8192) as u32 + 1);
        let aim = aim_of(number);
        let place = if matches!(aim, Aim::FixNear | Aim::LateNear) {
            near
        } else {
            any
        };
        match aim {
            Aim::Item if self.is_over => String::from_str(alloc, "over"),
            Aim::Item => item(alloc, self.bowler(), dice),
            Aim::FixNear | Aim::FixAny => {
                let item = self.item_at(alloc, place, dice)?;
                format!(in alloc; "fix {place} {item}")
            }
            Aim::LateNear | Aim::LateAny => {
                let item = self.item_at(alloc, place, dice)?;
                format!(in alloc; "late {place} {item}")
            }
        }
    }

    /// Notes that a command of this kind was taken or refused.
    fn note(&mut self, aim: Aim, is_taken: bool) -> Result<(), AllocError> {
        if is_taken {
            let bowler = self.bowler();
            self.bowlers.push(bowler)?;
        }
        if aim == Aim::Item {
            if self.is_over && is_taken {
                self.overs = self.overs.wrapping_add(1);
            }
            self.is_over = !self.is_over && !is_taken;
        }
        Ok(())
    }
}

/// Whether both books take the line. They must answer alike, and then have one score and the same clean items.
fn enter_in_both(rt: &impl Abort, book: &mut Book, checked: &mut CheckedBook, line: &str) -> bool {
    assert!(rt; book.len() < 8192 && checked.len() < 8192);
    let (answer, by_points) = match read_line(line.as_bytes()) {
        Ok(entry) => (book.enter(&entry), checked.enter(&entry)),
        Err(_) => panic!(rt; "no entry: {line}"),
    };
    assert!(rt; answer == by_points);
    assert!(rt; *book.score() == *checked.score());
    assert!(rt; book.clean_items() == checked.clean_items());
    answer.is_ok()
}

/// How many commands were taken: all, and the corrections and late entries at the places 63 to 65.
#[derive(Clone, Copy)]
struct Taken {
    all: u32,
    fixes_near: u32,
    lates_near: u32,
}

impl Taken {
    /// Counts one more command of this kind.
    fn and(self, aim: Aim) -> Taken {
        let fix = if aim == Aim::FixNear { 1 } else { 0 };
        let late = if aim == Aim::LateNear { 1 } else { 0 };
        Taken {
            all: self.all.wrapping_add(1),
            fixes_near: self.fixes_near.wrapping_add(fix),
            lates_near: self.lates_near.wrapping_add(late),
        }
    }
}

/// Checks that both books answer each command alike, and then have one score.
fn compare_books(rt: &impl Abort, alloc: Global) -> Result<(), AllocError> {
    let mut book = Book::new(alloc, 2)?;
    let mut checked = CheckedBook::new(alloc, 2)?;
    let mut course = Course::new(alloc);
    let mut taken = Taken {
        all: 0,
        fixes_near: 0,
        lates_near: 0,
    };
    let mut dice: u32 = 1;
    for number in 0..503 {
        dice = dice.wrapping_mul(1103515245).wrapping_add(12345);
        let line = course.command(alloc, number, dice >> 16)?;
        let is_taken = enter_in_both(rt, &mut book, &mut checked, line.as_str());
        course.note(aim_of(number), is_taken)?;
        if is_taken {
            taken = taken.and(aim_of(number));
        }
    }
    assert!(rt; taken.all >= 400);
    assert!(rt; taken.fixes_near >= 8 && taken.lates_near >= 4);
    Ok(())
}

#[test]
fn both_books_agree(rt: HostRuntime) {
    let alloc = rt.alloc();
    assert!(rt; compare_books(&rt, alloc).is_ok() || compare_books(&rt, alloc).is_ok());
}
