//! `ground card`, `lines`, `export` and `page` print a product of a book, which is made of pen lines or a desk's votes file.

ghost use Rattle.std.specs.Prelude.{string_bytes, IfErr, IfOk, IfSome};
ghost use Rattle.books.specs.CardBook.{IsBookFrom};
ghost use Rattle.streams.specs.Watched.{stream_of};
ghost use Rattle.toml.specs.View.{table_view};
ghost use Rattle.commands.specs.Product.{IsOfBook, PrintsBook, WhyNotPrinted};
ghost use Rattle.setup.specs.Ends.{EndsReading, EndsWriting};

use crate::product::{Product, print_product};
use crate::telling::tell;
use books::{Source, book_from};
use cards::MatchSheet;
use export::document_of;
use setup::{
    SheetFile, StopFault, Stopped, card_sheet_at, handed_fault, open_input, output, short_sheet_at,
    short_sheet_bytes, short_sheet_of,
};
use std::alloc::Global;
use streams::{Feed, Sink, Watched, read_all};
use toml::Table;

/// Reads pen lines or a votes file to the end, and prints a product of the book, with the sheet and its document. Writes
/// nothing where a line isn't taken, or the file or its votes are refused. Returns what to tell standard error.
pub fn book_run<R: Feed, W: Sink>(
    alloc: Global,
    product: Product,
    sheet: &MatchSheet,
    document: &Table,
    source: Source,
    reader: &mut Watched<R>,
    writer: &mut Watched<W>,
) -> Result<String, StopFault>
    ensures written { IfOk result (λ told. IfSome (R.remaining (stream_of reader.old)) (λ input.
        PrintsBook W.contents writer.old writer.new product sheet.now (table_view document.now)
        (string_bytes told) (IsBookFrom source sheet.now input))) }
    ensures why { IfErr result (λ fault. IfSome (R.remaining (stream_of reader.old)) (λ input.
        WhyNotPrinted source sheet.now input fault)) }
    ensures only { IfErr result IsOfBook }
    ensures read { EndsReading R.remaining StopFault.Read result reader.old reader.new }
    ensures writes { EndsWriting W.calls StopFault.Write result writer.old writer.new }
{
    let input = read_all(alloc, reader)?;
    let book = book_from(alloc, sheet, source, input.as_slice())?;
    print_product(alloc, product, sheet, document, &book, writer)
}

/// Reads the match sheet in a file, and its document.
fn sheet_and_document<'a>(
    rt: &HostRuntime,
    path: &'a str,
) -> Result<(MatchSheet, Table), Stopped<'a>> {
    let text = short_sheet_bytes(rt, path)?;
    let sheet = short_sheet_of(rt, path, text.as_slice())?;
    match document_of(rt.alloc(), text.as_slice()) {
        Ok(document) => Ok((sheet, document)),
        Err(why) => Err(Stopped::at(path, handed_fault(rt, text.as_slice(), why))),
    }
}

/// Reads the match sheet in a file, and its document, which is empty for cards and lines: they take nothing of it.
pub fn sheet_for<'a>(
    rt: &HostRuntime,
    product: Product,
    path: &'a str,
) -> Result<(MatchSheet, Table), Stopped<'a>> {
    match product {
        Product::Cards | Product::Lines => {
            Ok((short_sheet_at(rt, path)?, Table::new(rt.alloc())))
        }
        Product::Json | Product::Page | Product::Rows(_) => sheet_and_document(rt, path),
    }
}

/// Reads the match sheet and its document for the book of one file. For cards the sheet may be longer.
fn sheet_of_one<'a>(
    rt: &HostRuntime,
    product: Product,
    path: &'a str,
) -> Result<(MatchSheet, Table), Stopped<'a>> {
    match product {
        Product::Cards => {
            let SheetFile { sheet, .. } = card_sheet_at(rt, path)?;
            Ok((sheet, Table::new(rt.alloc())))
        }
        _ => sheet_for(rt, product, path),
    }
}

/// Prints a product of the book of one file.
#[inline(never)]
pub fn start_book<'a>(
    rt: &HostRuntime,
    product: Product,
    sheet: &'a str,
    from: &'a str,
    source: Source,
) -> Result<bool, Stopped<'a>> {
    let (sheet, document) = sheet_of_one(rt, product, sheet)?;
    let mut reader = open_input(rt, from)?;
    let mut writer = output(rt)?;
    match book_run(
        rt.alloc(),
        product,
        &sheet,
        &document,
        source,
        &mut reader,
        &mut writer,
    ) {
        Ok(told) => {
            tell(rt, told.as_str());
            Ok(false)
        }
        Err(fault) => Err(Stopped::at(from, fault)),
    }
}
