//! What is printed of the agreed list of both desks' votes files.

ghost use Rattle.std.specs.Prelude.{◌≡◌, ◌≢◌, [], string_bytes, IfErr, IfOk, IfSome};
ghost use Rattle.agree_core.specs.Books.{AllTaken};
ghost use Rattle.agree_core.specs.declared.messages.DeskId.TheVariants.{A, B};
ghost use Rattle.streams.specs.Watched.{stream_of};
ghost use Rattle.toml.specs.View.{table_view};
ghost use Rattle.books.specs.BothFiles.{IsBookOfBoth};
ghost use Rattle.corrections.specs.Refusal.{book_refusal};
ghost use Rattle.commands.specs.BothFiles.{IsOfReading, WhyNotBoth};
ghost use Rattle.commands.specs.Ends.{HavePlaces};
ghost use Rattle.commands.specs.Product.{PrintsBook};
ghost use Rattle.setup.specs.Ends.{EndsReading, EndsWriting};

use crate::book_command::sheet_for;
use crate::file_ends::{places_of, tell_ends};
use crate::product::{Product, print_product};
use crate::telling::tell;
use agree_core::DeskId;
use books::{BothFault, book_of_both};
use cards::MatchSheet;
use corrections::CheckedBook;
use setup::{StopFault, Stopped, open_input, output};
use std::alloc::Global;
use streams::{Feed, InputFault, Sink, Watched, read_all};
use toml::Table;

/// Why a command on both desks' votes files stops early.
#[derive(Clone, Copy)]
pub enum BothPrintFault {
    /// Memory was refused.
    NoMemory,
    /// A read of this desk's file failed or was interrupted, or the file is longer than 16,777,216 bytes.
    Read(DeskId),
    /// A write failed.
    Write,
    /// A votes file is refused, or both files have no book.
    Book(BothFault),
}

impl BothPrintFault {
    ghost use Rattle.commands.specs.BothFiles.{of_input, of_printing, is_of_second};

    /// Returns the fault of a desk's file that isn't read to its end.
    pub fn of_input(desk: DeskId, why: InputFault) -> BothPrintFault
        ensures { result ≡ of_input desk why }
    {
        match why {
            InputFault::NoMemory => BothPrintFault::NoMemory,
            InputFault::Read => BothPrintFault::Read(desk),
        }
    }

    /// Returns the fault of a product that isn't printed: memory was refused, or else a write failed.
    pub fn of_printing(why: StopFault) -> BothPrintFault
        ensures { result ≡ of_printing why }
    {
        match why {
            StopFault::NoMemory => BothPrintFault::NoMemory,
            _ => BothPrintFault::Write,
        }
    }

    /// Whether the file of desk B is at fault.
    pub fn is_of_second(self) -> bool
        ensures { result ≡ is_of_second self }
    {
        match self {
            BothPrintFault::Read(DeskId::B) => true,
            BothPrintFault::Book(
                BothFault::Votes {
                    desk: DeskId::B,
                    ..
                },
            ) => true,
            _ => false,
        }
    }
}

impl From<BothFault> for BothPrintFault {
    ghost use Rattle.commands.specs.BothFiles.{of_book};

    ghost from_gives = { λ why fault. fault ≡ of_book why };

    fn from(why: BothFault) -> Self {
        match why {
            BothFault::NoMemory => BothPrintFault::NoMemory,
            _ => BothPrintFault::Book(why),
        }
    }
}

impl From<BothPrintFault> for StopFault {
    ghost use Rattle.commands.specs.BothFiles.{stop_of};

    ghost from_gives = { λ why fault. fault ≡ stop_of why };

    fn from(why: BothPrintFault) -> Self {
        match why {
            BothPrintFault::NoMemory | BothPrintFault::Book(BothFault::NoMemory) => {
                StopFault::NoMemory
            }
            BothPrintFault::Read(_) => StopFault::Read,
            BothPrintFault::Write => StopFault::Write,
            BothPrintFault::Book(BothFault::Votes { why, .. }) => StopFault::VotesNamed(why),
            BothPrintFault::Book(BothFault::NotOneHistory { place }) => {
                StopFault::NotOneHistory { place }
            }
            BothPrintFault::Book(BothFault::BadVotes { place }) => StopFault::BadVotes { place },
        }
    }
}

/// Reads all bytes of both files, desk A's first.
pub fn read_both<R: Feed>(
    alloc: Global,
    a: &mut Watched<R>,
    b: &mut Watched<R>,
) -> Result<(Vec<u8>, Vec<u8>), BothPrintFault>
    ensures first { IfOk result (λ files. IfSome (R.remaining (stream_of a.old)) (λ first. files.0.items ≡ first)) }
    ensures second { IfOk result (λ files. IfSome (R.remaining (stream_of b.old)) (λ second. files.1.items ≡ second)) }
    ensures why { IfErr result IsOfReading }
    ensures read_first { EndsReading R.remaining (BothPrintFault.Read A) result a.old a.new }
    ensures read_second { EndsReading R.remaining (BothPrintFault.Read B) result b.old b.new }
{
    let first = match read_all(alloc, a) {
        Ok(bytes) => bytes,
        Err(why) => return Err(BothPrintFault::of_input(DeskId::A, why)),
    };
    let second = match read_all(alloc, b) {
        Ok(bytes) => bytes,
        Err(why) => return Err(BothPrintFault::of_input(DeskId::B, why)),
    };
    Ok((first, second))
}

/// The book of both files, and how many places each file has, desk A's first.
#[derive(Drop)]
pub struct PlacedBook {
    pub book: CheckedBook,
    pub places: (u32, u32),
}

/// Makes the book of both files with these bytes, and counts the places of each file.
pub fn placed_book(
    alloc: Global,
    sheet: &MatchSheet,
    first: &[u8],
    second: &[u8],
) -> Result<PlacedBook, BothPrintFault>
    ensures book { IfOk result (λ placed. IsBookOfBoth sheet.now first.now second.now placed.book.entries) }
    ensures places { IfOk result (λ placed. HavePlaces sheet.now.game first.now second.now placed.places.0 placed.places.1) }
    ensures same_match { IfOk result (λ placed. placed.book.innings_a_side ≡ sheet.now.innings) }
    ensures legal { IfOk result (λ placed. AllTaken (book_refusal sheet.now.innings) [] placed.book.entries) }
    ensures why { IfErr result (WhyNotBoth sheet.now first.now second.now) }
    ensures unread { IfErr result (λ fault. fault ≢ BothPrintFault.Write) }
    ensures read_first { IfErr result (λ fault. fault ≢ BothPrintFault.Read A) }
    ensures read_second { IfErr result (λ fault. fault ≢ BothPrintFault.Read B) }
{
    let both = book_of_both(alloc, sheet, first, second)?;
    let places = (places_of(&both.a), places_of(&both.b));
    Ok(PlacedBook {
        book: both.book,
        places,
    })
}

/// Reads both files to the end, desk A's first, and makes their book. Reads each file's votes once.
pub fn book_of_readers<R: Feed>(
    alloc: Global,
    sheet: &MatchSheet,
    a: &mut Watched<R>,
    b: &mut Watched<R>,
) -> Result<PlacedBook, BothPrintFault>
    ensures book { IfOk result (λ placed. IfSome (R.remaining (stream_of a.old)) (λ first.
        IfSome (R.remaining (stream_of b.old)) (λ second.
        IsBookOfBoth sheet.now first second placed.book.entries))) }
    ensures places { IfOk result (λ placed. IfSome (R.remaining (stream_of a.old)) (λ first.
        IfSome (R.remaining (stream_of b.old)) (λ second.
        HavePlaces sheet.now.game first second placed.places.0 placed.places.1))) }
    ensures same_match { IfOk result (λ placed. placed.book.innings_a_side ≡ sheet.now.innings) }
    ensures legal { IfOk result (λ placed. AllTaken (book_refusal sheet.now.innings) [] placed.book.entries) }
    ensures why { IfErr result (λ fault. IfSome (R.remaining (stream_of a.old)) (λ first.
        IfSome (R.remaining (stream_of b.old)) (λ second. WhyNotBoth sheet.now first second fault))) }
    ensures read_first { EndsReading R.remaining (BothPrintFault.Read A) result a.old a.new }
    ensures read_second { EndsReading R.remaining (BothPrintFault.Read B) result b.old b.new }
    ensures unwritten { IfErr result (λ fault. fault ≢ BothPrintFault.Write) }
{
    let (first, second) = read_both(alloc, a, b)?;
    placed_book(alloc, sheet, first.as_slice(), second.as_slice())
}

/// Reads both desks' votes files to the end, and prints a product of the agreed list of their votes, with its last entry.
/// Writes nothing where a file is refused, the votes aren't of one history, or the agreed list is no legal book. Returns what
/// to tell standard error, and how many places each file has.
pub fn book_both_run<R: Feed, W: Sink>(
    alloc: Global,
    product: Product,
    sheet: &MatchSheet,
    document: &Table,
    a: &mut Watched<R>,
    b: &mut Watched<R>,
    writer: &mut Watched<W>,
) -> Result<(String, (u32, u32)), BothPrintFault>
    ensures written { IfOk result (λ answer. IfSome (R.remaining (stream_of a.old)) (λ first.
        IfSome (R.remaining (stream_of b.old)) (λ second.
        PrintsBook W.contents writer.old writer.new product sheet.now (table_view document.now)
        (string_bytes answer.0) (IsBookOfBoth sheet.now first second)))) }
    ensures places { IfOk result (λ answer. IfSome (R.remaining (stream_of a.old)) (λ first.
        IfSome (R.remaining (stream_of b.old)) (λ second. HavePlaces sheet.now.game first second answer.1.0 answer.1.1))) }
    ensures why { IfErr result (λ fault. IfSome (R.remaining (stream_of a.old)) (λ first.
        IfSome (R.remaining (stream_of b.old)) (λ second. WhyNotBoth sheet.now first second fault))) }
    ensures read_first { EndsReading R.remaining (BothPrintFault.Read A) result a.old a.new }
    ensures read_second { EndsReading R.remaining (BothPrintFault.Read B) result b.old b.new }
    ensures writes { EndsWriting W.calls BothPrintFault.Write result writer.old writer.new }
{
    let placed = book_of_readers(alloc, sheet, a, b)?;
    match print_product(alloc, product, sheet, document, &placed.book, writer) {
        Ok(told) => Ok((told, placed.places)),
        Err(why) => Err(BothPrintFault::of_printing(why)),
    }
}

/// Returns the fault of a command on both files, with the path of the file at fault: desk B's, or else desk A's.
pub fn stopped_at<'a>(fault: BothPrintFault, a: &'a str, b: &'a str) -> Stopped<'a> {
    let path = if fault.is_of_second() { b } else { a };
    Stopped::at(path, StopFault::from(fault))
}

/// Prints a product of the agreed list of both desks' votes files.
#[inline(never)]
pub fn start_book_of_both<'a>(
    rt: &HostRuntime,
    product: Product,
    sheet: &'a str,
    a: &'a str,
    b: &'a str,
) -> Result<bool, Stopped<'a>> {
    let (sheet, document) = sheet_for(rt, product, sheet)?;
    let mut first = open_input(rt, a)?;
    let mut second = open_input(rt, b)?;
    let mut writer = output(rt)?;
    match book_both_run(
        rt.alloc(),
        product,
        &sheet,
        &document,
        &mut first,
        &mut second,
        &mut writer,
    ) {
        Ok((told, places)) => {
            tell_ends(rt, a, b, places);
            tell(rt, told.as_str());
            Ok(false)
        }
        Err(fault) => Err(stopped_at(fault, a, b)),
    }
}
