//! The run rate of the last five overs.

ghost use Rattle.std.specs.Prelude.{◌≡◌, ◌+◌, ◌*◌, ◌≤◌, length};
ghost use Rattle.notation.specs.declared.entry.TheConstants.{PLACES};
ghost use Rattle.corrections.specs.CleanList.{history_of};
ghost use Rattle.limits.specs.Figures as figures;
ghost use Rattle.limits.specs.Rates as rates;
ghost use Rattle.limits.specs.inner.Walks.{walk};
ghost use Rattle.scoreboard.specs.inner.Recent as laws;

use cards::all_runs;
use corrections::{BookOf, Placed};
use limits::an_over;
use notation::Plain;

/// The runs off each of the last five overs called, the newest first, 0 if there were fewer; and the number of those overs.
#[derive(Clone, Copy)]
struct Five {
    first: u32,
    second: u32,
    third: u32,
    fourth: u32,
    fifth: u32,
    overs: u32,
}

/// The runs off the open over, and off the last five overs called.
#[derive(Clone, Copy)]
struct Recent {
    this: u32,
    called: Five,
}

/// The runs before the first delivery of an innings.
fn none_recent() -> Recent
    ensures { result ≡ laws.none_recent }
{
    Recent {
        this: 0,
        called: Five {
            first: 0,
            second: 0,
            third: 0,
            fourth: 0,
            fifth: 0,
            overs: 0,
        },
    }
}

/// Adds an over with these runs.
fn five_with(runs: u32, five: Five) -> Five
    requires { five.overs ≤ 5 }
    ensures value { result ≡ laws.five_with runs five }
    ensures bound { laws.sum_of result ≤ runs + laws.sum_of five }
    ensures overs { result.overs ≤ 5 }
{
    Five {
        first: runs,
        second: five.first,
        third: five.second,
        fourth: five.third,
        fifth: five.fourth,
        overs: (five.overs + 1).min(5),
    }
}

/// Adds an item.
fn recent_after(item: &Plain, recent: Recent) -> Recent
    requires runs { recent.this + laws.sum_of recent.called ≤ 260 * PLACES }
    requires overs { recent.called.overs ≤ 5 }
    ensures value { result ≡ laws.recent_after item.now recent }
    ensures bound { result.this + laws.sum_of result.called ≤ recent.this + laws.sum_of recent.called + 260 }
    ensures overs { result.called.overs ≤ 5 }
{
    match item {
        Plain::Ball(ball) => Recent {
            this: recent.this + all_runs(ball),
            called: recent.called,
        },
        Plain::Over => Recent {
            this: 0,
            called: five_with(recent.this, recent.called),
        },
        Plain::Innings(_) | Plain::End(_) => none_recent(),
        _ => recent,
    }
}

/// Returns the runs after these items.
fn recent_behind(items: &[Placed]) -> Recent
    requires { length items.now ≤ PLACES }
    ensures value { result ≡ walk laws.recent_after laws.none_recent items.now }
    ensures bound { result.this + laws.sum_of result.called ≤ 260 * PLACES }
    ensures overs { result.called.overs ≤ 5 }
{
    let mut recent = none_recent();
    for placed in items {
        recent = recent_after(&placed.item, recent);
    }
    recent
}

/// Returns the rate of these overs.
fn rate_of(five: Five) -> Option<u64>
    requires runs { laws.sum_of five ≤ 260 * PLACES }
    requires overs { five.overs ≤ 5 }
    ensures { result ≡ rates.an_over (laws.sum_of five) (6 * five.overs) }
{
    let runs = five.first + five.second + five.third + five.fourth + five.fifth;
    an_over(runs, 6 * five.overs)
}

/// Returns the runs an over in the last five overs of the open innings, in hundredths.
pub fn last_rate<B: BookOf>(book: &B) -> Option<u64>
    ensures { result ≡ figures.last_rate (history_of (B.content book.now)) }
{
    rate_of(recent_behind(book.clean_items()).called)
}
