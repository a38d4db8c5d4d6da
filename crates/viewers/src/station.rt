//! The kinds of stations that have a page.

ghost use Rattle.std.specs.Prelude.{◌≡◌};
ghost use Rattle.viewers.specs.Replies as texts;

use served_pages::{desk, scoreboard};

/// The kind of a page: a board's, which anyone may look at, or a desk's, in which its scorer types.
#[derive(Clone, Copy)]
pub enum Station {
    Board,
    Desk,
}

/// Returns the page of a station.
pub fn page_of(station: Station) -> &'static [u8]
    ensures { result.now ≡ texts.page_of station }
{
    match station {
        Station::Board => scoreboard::PAGE,
        Station::Desk => desk::PAGE,
    }
}

/// Returns the content security policy of a station's page.
pub fn policy_of(station: Station) -> &'static [u8]
    ensures { result.now ≡ texts.policy_of station }
{
    match station {
        Station::Board => scoreboard::POLICY,
        Station::Desk => desk::POLICY,
    }
}
