//! What standard error is told where one desk's votes file ends before the other's.

ghost use Rattle.std.specs.Prelude.{◌≡◌, OnOk};
ghost use Rattle.streams.specs.Watched.{Prints, TellsFailure};
ghost use Rattle.books.specs.DeskVotes.{read_votes};
ghost use Rattle.commands.specs.Ends as ends;

use books::DeskVotes;
use setup::printable;
use streams::{Sink, Watched, WriteFailed};

/// Returns how many places a desk's file has, up to the place of its last vote.
pub fn places_of(votes: &DeskVotes) -> u32
    ensures { result ≡ ends.places_of (read_votes votes.now) }
{
    let count = votes.count();
    if count == 0 {
        return 0;
    }
    votes.nth(count - 1).place + 1
}

/// Prints that the file `short` ends this many places before the file `long`.
fn print_line<W: Sink>(
    out: &mut Watched<W>,
    short: &str,
    long: &str,
    places: u32,
) -> Result<(), WriteFailed>
    ensures text { OnOk result (Prints W.contents out.old out.new (ends.ends_line short.now long.now places)) }
    ensures failed { TellsFailure result out.old out.new }
{
    writeln!(
        out,
        "{short} ends {places} places before {long}: compare them"
    )
}

/// Prints which of two files, with these numbers of places, ends before the other, if by two places or more.
fn print_ends<W: Sink>(
    out: &mut Watched<W>,
    a: &str,
    b: &str,
    a_places: u32,
    b_places: u32,
) -> Result<(), WriteFailed>
    ensures text { OnOk result (Prints W.contents out.old out.new (ends.ends_text a.now b.now a_places b_places)) }
    ensures failed { TellsFailure result out.old out.new }
{
    let lacks_a = b_places.saturating_sub(a_places);
    let lacks_b = a_places.saturating_sub(b_places);
    if lacks_a > 1 {
        print_line(out, a, b, lacks_a)
    } else if lacks_b > 1 {
        print_line(out, b, a, lacks_b)
    } else {
        Ok(())
    }
}

/// Tells standard error which of two files, with these numbers of places, ends two or more before the other: half a match from
/// an older copy looks like a whole one.
pub fn tell_ends(rt: &HostRuntime, a: &str, b: &str, places: (u32, u32)) {
    let mut errors = Watched::new(rt.stderr());
    let (a_places, b_places) = places;
    let _ = print_ends(&mut errors, printable(a), printable(b), a_places, b_places);
}
