//! Why a desk refuses an entry, as its scorer is told.

ghost use Rattle.std.specs.Prelude.{◌++◌, codes, OnOk};
ghost use Rattle.streams.specs.Watched.{Prints, TellsFailure};
ghost use Rattle.notation.specs.Written.{IsEntry, IsPlain};
ghost use Rattle.changes.specs.Before.{item_with};
ghost use Rattle.desk.specs.Refusal.{name_of, number_of};
ghost use Rattle.screen.specs.Sentences.{of_desk};
ghost use Rattle.station_texts.specs.Questions.{explained};
ghost use Rattle.station_texts.specs.Laters as laters;
ghost use Rattle.station_texts.specs.Texts as texts;

use changes::item_with;
use corrections::BookOf;
use desk::Refusal;
use match_laws::LawRefusal;
use notation::{Entry, Plain, line_of};
use screen::refusal_sentence;
use streams::{Sink, Watched, WriteFailed};

/// Prints a refusal's number, name and sentence.
fn print_explained<W: Sink>(out: &mut Watched<W>, why: Refusal) -> Result<(), WriteFailed>
    ensures text { OnOk result (Prints W.contents out.old out.new
        (explained (codes "refused") (number_of why) (name_of why) (of_desk why))) }
    ensures failed { TellsFailure result out.old out.new }
{
    let code = why.number();
    let sentence = refusal_sentence(why);
    writeln!(out, "refused {code} {why}: {sentence}")
}

/// Prints why an entry is refused. Nothing is printed here of a failed disk.
pub(crate) fn print_refused<W: Sink>(out: &mut Watched<W>, why: Refusal) -> Result<(), WriteFailed>
    ensures text { OnOk result (Prints W.contents out.old out.new (texts.refused_text why)) }
    ensures failed { TellsFailure result out.old out.new }
{
    match why {
        Refusal::Failed | Refusal::Device => Ok(()),
        Refusal::Waiting => print_explained(out, Refusal::Waiting),
        Refusal::PlacesFull => print_explained(out, Refusal::PlacesFull),
        Refusal::RoundsFull => print_explained(out, Refusal::RoundsFull),
        Refusal::SlotsFull => print_explained(out, Refusal::SlotsFull),
        Refusal::Book(_) => print_explained(out, why),
    }
}

/// Prints the place that a correction leaves refused, and the cause's number.
fn print_later_numbers<W: Sink>(
    out: &mut Watched<W>,
    place: u32,
    why: LawRefusal,
) -> Result<(), WriteFailed>
    ensures text { OnOk result (Prints W.contents out.old out.new (laters.later_numbers place why)) }
    ensures failed { TellsFailure result out.old out.new }
{
    let cause = why.number();
    write!(out, "refused 32 Later {place} {cause}")
}

/// Prints the entry that would stand at the place, and why it is refused.
pub(crate) fn print_later_words<W: Sink>(
    out: &mut Watched<W>,
    place: u32,
    item: Plain,
    why: LawRefusal,
) -> Result<(), WriteFailed>
    requires { IsPlain item }
    ensures text { OnOk result (Prints W.contents out.old out.new (laters.later_words place item why)) }
    ensures failed { TellsFailure result out.old out.new }
{
    let line = line_of(&Entry::Write(item));
    let words = line.as_str();
    let sentence = refusal_sentence(Refusal::Book(corrections::Refusal::Law(why)));
    writeln!(out, ": place {place}, {words}:\n  {sentence}")
}

/// Prints the place that a correction leaves refused, the entry that would stand there, and why it is refused.
fn print_later<B: BookOf, W: Sink>(
    out: &mut Watched<W>,
    book: &B,
    entry: &Entry,
    place: u32,
    why: LawRefusal,
) -> Result<(), WriteFailed>
    requires { IsEntry entry.now }
    ensures text { OnOk result (Prints W.contents out.old out.new (laters.later_numbers place why
        ++ laters.later_words place (item_with (B.content book.now) entry.now place) why)) }
    ensures failed { TellsFailure result out.old out.new }
{
    let item = item_with(book, entry, place);
    print_later_numbers(out, place, why)?;
    print_later_words(out, place, item, why)
}

/// Prints why an entry is refused; for a correction, the first place that it leaves refused, and what would stand there.
pub(crate) fn print_refused_entry<B: BookOf, W: Sink>(
    out: &mut Watched<W>,
    book: &B,
    entry: &Entry,
    why: Refusal,
) -> Result<(), WriteFailed>
    requires { IsEntry entry.now }
    ensures text { OnOk result (Prints W.contents out.old out.new
        (texts.refused_entry (B.content book.now) entry.now why)) }
    ensures failed { TellsFailure result out.old out.new }
{
    match why {
        Refusal::Book(corrections::Refusal::Later { place, why }) => {
            print_later(out, book, entry, place, why)
        }
        _ => print_refused(out, why),
    }
}
