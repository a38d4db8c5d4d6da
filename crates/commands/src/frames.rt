//! The frame of a match in a folder: a line about it, and then a product's text.

ghost use Rattle.std.specs.Prelude.{◌≡◌, [], string_bytes, Err, IfErr, IfOk, OnOk};
ghost use Rattle.agree_core.specs.Books.{AllTaken};
ghost use Rattle.cards.specs.Reading.{IsReading};
ghost use Rattle.corrections.specs.Refusal.{book_refusal};
ghost use Rattle.export.specs.Document.{IsDocument};
ghost use Rattle.streams.specs.Watched.{Prints, TellsFailure};
ghost use Rattle.toml.specs.View.{table_view};
ghost use Rattle.setup.specs.SheetText.{IsSheetOf};
ghost use Rattle.commands.specs.Frames as texts;
ghost use Rattle.commands.specs.Frames.{IsDocumentFor, IsFrameIn, IsFrameOf, WhyNoBook, WhyNoFrame, WhyNoSheet, WhyUnread};
ghost use Rattle.commands.specs.MatchFiles.{HasBytes, path_in};
ghost use Rattle.commands.specs.Product.{IsTextOf};

use crate::both_files::{BothPrintFault, placed_book};
use crate::match_files::{Files, MatchFile, path_of};
use crate::product::{Product, print_product};
use crate::text_sink::TextSink;
use books::BothFault;
use cards::{MatchSheet, SheetFault, read_sheet};
use corrections::{BookOf, CheckedBook};
use export::document_of;
use setup::{LONGEST_SHEET, StopFault, print_fault, print_in_words};
use sheet_check::{first_line, handed_report_of, report_of};
use std::alloc::{AllocError, Global};
use streams::{InputFault, Sink, Watched, WriteFailed};
use toml::Table;

/// Why a match has no frame.
#[derive(Drop)]
pub enum MatchFault {
    /// Memory was refused.
    NoMemory,
    /// This file can't be read, or it is longer than is read.
    Read(MatchFile),
    /// The sheet is refused: what is wrong with it first, in words.
    Sheet { why: SheetFault, words: String },
    /// What the sheet hands on is refused: what is wrong with it first, in words.
    HandedOn { why: SheetFault, words: String },
    /// Both files have no book.
    Book(BothFault),
}

impl MatchFault {
    ghost use Rattle.commands.specs.Frames.{file_at_fault, stop_of_match};

    /// Returns the file that is at fault.
    pub fn file(&self) -> MatchFile
        ensures { result ≡ file_at_fault self.now }
    {
        match self {
            MatchFault::Read(file) => *file,
            MatchFault::Book(why) if BothPrintFault::Book(*why).is_of_second() => MatchFile::B,
            MatchFault::Book(_) => MatchFile::A,
            _ => MatchFile::Sheet,
        }
    }

    /// Returns the fault that a single run of the match ends with.
    fn stop(&self) -> StopFault
        ensures { result ≡ stop_of_match self.now }
    {
        match self {
            MatchFault::NoMemory => StopFault::NoMemory,
            MatchFault::Read(_) => StopFault::Read,
            MatchFault::Sheet { why, .. } | MatchFault::HandedOn { why, .. } => {
                StopFault::Sheet(*why)
            }
            MatchFault::Book(why) => StopFault::from(BothPrintFault::Book(*why)),
        }
    }
}

impl From<AllocError> for MatchFault {
    ghost use Rattle.commands.specs.declared.frames.MatchFault.TheVariants.{NoMemory};

    ghost from_gives = { λ _ fault. fault ≡ NoMemory };

    fn from(_why: AllocError) -> Self {
        MatchFault::NoMemory
    }
}

/// A product's text of a match, with how many places each desk's file has, A's first, and how many entries both have agreed.
#[derive(Drop)]
pub struct Frame {
    pub places: (u32, u32),
    pub agreed: u32,
    pub text: String,
}

/// Reads all bytes of a match's file.
fn bytes_of<F: Files>(
    alloc: Global,
    files: &F,
    folder: &str,
    file: MatchFile,
) -> Result<Vec<u8>, MatchFault>
    ensures bytes { IfOk result (λ bytes. HasBytes (F.known files.now) (path_in folder.now file) bytes.items) }
    ensures why { IfErr result (WhyUnread (F.known files.now) folder.now file) }
{
    let path = path_of(alloc, folder, file)?;
    match files.bytes_of(alloc, path.as_str()) {
        Ok(bytes) => Ok(bytes),
        Err(InputFault::NoMemory) => Err(MatchFault::NoMemory),
        Err(InputFault::Read) => Err(MatchFault::Read(file)),
    }
}

/// Returns why a sheet of this text is refused, in words.
fn fault_in_words(alloc: Global, text: &[u8], why: SheetFault) -> Result<MatchFault, AllocError>
    requires { IsReading text.now (Err why) }
    ensures { IfOk result (WhyNoSheet text.now) }
{
    let report = report_of(alloc, text)?;
    let words = String::from_str(alloc, first_line(report.as_str()))?;
    Ok(MatchFault::Sheet { why, words })
}

/// Returns why what a sheet of this text hands on is refused, in words.
fn handed_in_words(alloc: Global, text: &[u8], why: SheetFault) -> Result<MatchFault, AllocError>
    requires { IsDocument text.now (Err why) }
    ensures { IfOk result (WhyNoSheet text.now) }
{
    let report = handed_report_of(alloc, text)?;
    let words = String::from_str(alloc, first_line(report.as_str()))?;
    Ok(MatchFault::HandedOn { why, words })
}

/// Reads the match sheet of a file's bytes.
fn sheet_of(alloc: Global, text: &[u8]) -> Result<MatchSheet, MatchFault>
    ensures sheet { IfOk result (IsSheetOf text.now) }
    ensures why { IfErr result (WhyNoSheet text.now) }
{
    if text.len() > LONGEST_SHEET {
        return Err(MatchFault::Read(MatchFile::Sheet));
    }
    match read_sheet(alloc, text) {
        Ok(sheet) => Ok(sheet),
        Err(SheetFault::NoMemory) => Err(MatchFault::NoMemory),
        Err(why) => Err(fault_in_words(alloc, text, why)?),
    }
}

/// Returns what a product takes of the document of a sheet's bytes.
fn document_for(alloc: Global, product: Product, text: &[u8]) -> Result<Table, MatchFault>
    ensures document { IfOk result (IsDocumentFor product text.now) }
    ensures why { IfErr result (WhyNoSheet text.now) }
{
    if matches!(product, Product::Cards | Product::Lines) {
        return Ok(Table::new(alloc));
    }
    match document_of(alloc, text) {
        Ok(document) => Ok(document),
        Err(SheetFault::NoMemory) => Err(MatchFault::NoMemory),
        Err(why) => Err(handed_in_words(alloc, text, why)?),
    }
}

/// Makes the text of a product of a legal book.
fn product_text(
    alloc: Global,
    product: Product,
    sheet: &MatchSheet,
    document: &Table,
    book: &CheckedBook,
) -> Result<String, AllocError>
    requires same_match { book.now.innings_a_side ≡ sheet.now.innings }
    requires legal { AllTaken (book_refusal sheet.now.innings) [] book.now.entries }
    ensures { IfOk result (λ text.
        IsTextOf product sheet.now (table_view document.now) book.now.entries (string_bytes text)) }
{
    let mut out = Watched::new(TextSink::new(alloc));
    match print_product(alloc, product, sheet, document, book, &mut out) {
        Ok(_told) => Ok(out.into_inner().into_text()),
        // A write to memory fails where memory is refused.
        Err(_) => Err(AllocError),
    }
}

/// Makes the frame of a match with these votes files.
fn framed(
    alloc: Global,
    product: Product,
    sheet: &MatchSheet,
    document: &Table,
    a: &[u8],
    b: &[u8],
) -> Result<Frame, MatchFault>
    ensures frame { IfOk result (IsFrameOf product sheet.now (table_view document.now) a.now b.now) }
    ensures why { IfErr result (WhyNoBook sheet.now a.now b.now) }
{
    let placed = match placed_book(alloc, sheet, a, b) {
        Ok(placed) => placed,
        Err(BothPrintFault::Book(why)) => return Err(MatchFault::Book(why)),
        Err(_) => return Err(MatchFault::NoMemory),
    };
    let text = product_text(alloc, product, sheet, document, &placed.book)?;
    Ok(Frame {
        places: placed.places,
        agreed: placed.book.len(),
        text,
    })
}

/// Makes the frame of the match in a folder. The sheet is looked at before the votes files are read.
pub fn frame_of<F: Files>(
    alloc: Global,
    product: Product,
    files: &F,
    folder: &str,
) -> Result<Frame, MatchFault>
    ensures frame { IfOk result (IsFrameIn (F.known files.now) product folder.now) }
    ensures why { IfErr result (WhyNoFrame (F.known files.now) product folder.now) }
{
    let text = bytes_of(alloc, files, folder, MatchFile::Sheet)?;
    let sheet = sheet_of(alloc, text.as_slice())?;
    let document = document_for(alloc, product, text.as_slice())?;
    let a = bytes_of(alloc, files, folder, MatchFile::A)?;
    let b = bytes_of(alloc, files, folder, MatchFile::B)?;
    framed(
        alloc,
        product,
        &sheet,
        &document,
        a.as_slice(),
        b.as_slice(),
    )
}

/// Prints a frame of the match in a folder.
pub fn print_frame<W: Sink>(
    out: &mut Watched<W>,
    folder: &str,
    frame: &Frame,
) -> Result<(), WriteFailed>
    ensures text { OnOk result (Prints W.contents out.old out.new (texts.frame_bytes folder.now frame.now)) }
    ensures failed { TellsFailure result out.old out.new }
{
    let (a, b) = frame.places;
    let agreed = frame.agreed;
    let text = frame.text.as_str();
    let bytes = text.len();
    write!(out, "{folder}\t{a}\t{b}\t{agreed}\t{bytes}\n{text}")
}

/// Prints why a match has no frame, as a single run tells it of the file at this path.
fn print_reason<W: Sink>(
    out: &mut Watched<W>,
    path: &str,
    fault: &MatchFault,
) -> Result<(), WriteFailed>
    ensures text { OnOk result (Prints W.contents out.old out.new (texts.reason_line path.now fault.now)) }
    ensures failed { TellsFailure result out.old out.new }
{
    match fault {
        MatchFault::Sheet { why, words } | MatchFault::HandedOn { why, words } => {
            print_in_words(out, *why, words.as_str())
        }
        _ => print_fault(out, path, fault.stop()),
    }
}

/// Prints the match's folder, and why it has no frame.
pub fn print_refusal<W: Sink>(
    out: &mut Watched<W>,
    folder: &str,
    path: &str,
    fault: &MatchFault,
) -> Result<(), WriteFailed>
    ensures text { OnOk result (Prints W.contents out.old out.new (texts.refusal_line folder.now path.now fault.now)) }
    ensures failed { TellsFailure result out.old out.new }
{
    write!(out, "{folder}: ")?;
    print_reason(out, path, fault)
}
