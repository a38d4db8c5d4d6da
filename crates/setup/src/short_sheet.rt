//! The sheet of a word that takes no long one, and tells in words what is wrong with one; and that of one file's cards, which
//! may be longer.

ghost use Rattle.std.specs.Prelude.{◌≡◌, ◌≤◌, ◌<◌, IfOk, IfErr, Ok, vec_len};
ghost use Rattle.setup.specs.SheetText.{IsSheetOf};

use crate::fault::{StopFault, Stopped, print_in_words};
use crate::opening::bytes_at;
use crate::twins::told_sheet_of;
use cards::{MatchSheet, SheetFault};
use sheet_check::{faults_of, first_line, handed_report_of, report_of};
use std::io::Write;
use std::snapshot::Snapshot;
use streams::Watched;
use toml::Table;

/// How many bytes the sheet of such a word has at most.
pub const LONGEST_SHEET: usize = 65_536;

/// How many bytes the sheet of one file's cards has at most.
pub const LONGEST_CARD_SHEET: usize = 1_048_576;

/// A sheet's bytes, where they are no more than so many. One that is longer can't be read: it isn't taken apart.
fn expect_short<'a>(path: &'a str, bytes: Vec<u8>, most: usize) -> Result<Vec<u8>, Stopped<'a>>
    ensures taken { vec_len bytes ≤ most → result ≡ Ok bytes }
    ensures most { IfOk result (λ taken. vec_len taken ≤ most) }
    ensures refused { IfErr result (λ stopped. (stopped.fault ≡ StopFault.Read) × (most < vec_len bytes)) }
{
    if bytes.len() > most {
        return Err(Stopped::at(path, StopFault::Read));
    }
    Ok(bytes)
}

/// The bytes of such a sheet.
pub fn short_sheet_bytes<'a>(rt: &HostRuntime, path: &'a str) -> Result<Vec<u8>, Stopped<'a>>
    ensures { IfOk result (λ bytes. vec_len bytes ≤ LONGEST_SHEET) }
{
    expect_short(path, bytes_at(rt, path)?, LONGEST_SHEET)
}

/// Tells standard error by which number a sheet is refused, and why in words. That it can't be told is no fault.
fn tell_fault(rt: &HostRuntime, why: SheetFault, words: &str) -> StopFault {
    if why.number().is_none() {
        return StopFault::NoMemory;
    }
    let _ = print_in_words(&mut Watched::new(rt.stderr()), why, words);
    StopFault::SheetTold
}

/// Why a sheet of this text is refused, of which standard error is told in words: the first of all that is wrong with it.
fn fault_in_words(rt: &HostRuntime, text: &[u8], why: SheetFault) -> StopFault {
    match report_of(rt.alloc(), text) {
        Ok(report) => tell_fault(rt, why, first_line(report.as_str())),
        Err(_) => StopFault::Sheet(why),
    }
}

/// Why a sheet of this text isn't handed on to archives and pages. Standard error is told which key of `[info]` or `[meta]` it is
/// refused for, and what is wrong with it.
pub fn handed_fault(rt: &HostRuntime, text: &[u8], why: SheetFault) -> StopFault {
    match handed_report_of(rt.alloc(), text) {
        Ok(report) => tell_fault(rt, why, first_line(report.as_str())),
        Err(_) => StopFault::from(why),
    }
}

/// The match sheet of a file's bytes, told as any other. One that is refused is told in words too.
pub fn short_sheet_of<'a>(
    rt: &HostRuntime,
    path: &'a str,
    text: &[u8],
) -> Result<MatchSheet, Stopped<'a>>
    ensures { IfOk result (IsSheetOf text.now) }
{
    match told_sheet_of(rt, path, text) {
        Err(
            Stopped {
                fault: StopFault::Sheet(why),
                ..
            },
        ) => Err(Stopped::at(path, fault_in_words(rt, text, why))),
        answer => answer,
    }
}

/// The match sheet in a file. One that is refused is told in words too.
pub fn short_sheet_at<'a>(rt: &HostRuntime, path: &'a str) -> Result<MatchSheet, Stopped<'a>> {
    let text = short_sheet_bytes(rt, path)?;
    short_sheet_of(rt, path, text.as_slice())
}

/// The match sheet of a file, with where it was read, and what was read there, which clauses alone read.
#[derive(Drop)]
pub struct SheetFile<'a> {
    pub path: &'a str,
    pub text: Snapshot<Vec<u8>>,
    pub sheet: MatchSheet,
}

/// The match sheet in a file, with what it was read of.
pub fn sheet_file_at<'a>(rt: &HostRuntime, path: &'a str) -> Result<SheetFile<'a>, Stopped<'a>>
    ensures path { IfOk result (λ file. file.path.now ≡ path.now) }
    ensures sheet { IfOk result (λ file. IsSheetOf (file.text).value.items file.sheet) }
{
    let text = short_sheet_bytes(rt, path)?;
    let sheet = short_sheet_of(rt, path, text.as_slice())?;
    Ok(SheetFile {
        path,
        text: Snapshot::of(&text),
        sheet,
    })
}

/// The match sheet in a file, with what it was read of, for one file's cards: it may be longer, and one that is refused is told by
/// its number alone.
pub fn card_sheet_at<'a>(rt: &HostRuntime, path: &'a str) -> Result<SheetFile<'a>, Stopped<'a>>
    ensures path { IfOk result (λ file. file.path.now ≡ path.now) }
    ensures sheet { IfOk result (λ file. IsSheetOf (file.text).value.items file.sheet) }
    ensures most { IfOk result (λ file. vec_len (file.text).value ≤ LONGEST_CARD_SHEET) }
{
    let text = expect_short(path, bytes_at(rt, path)?, LONGEST_CARD_SHEET)?;
    let sheet = told_sheet_of(rt, path, text.as_slice())?;
    Ok(SheetFile {
        path,
        text: Snapshot::of(&text),
        sheet,
    })
}

/// Why nothing begins with a sheet's table, if something is wrong with it or with its stations. Standard error is told of the
/// first of it in words.
fn fault_of(rt: &HostRuntime, table: &Table) -> Option<StopFault> {
    match faults_of(rt.alloc(), table) {
        Ok(faults) => {
            let fault = faults.first()?;
            Some(tell_fault(rt, fault.why, fault.words.as_str()))
        }
        Err(_) => Some(StopFault::NoMemory),
    }
}

/// The table of a match sheet in a file, whose stations stand for options.
pub fn stations_at<'a>(rt: &HostRuntime, path: &'a str) -> Result<Table, Stopped<'a>> {
    let text = short_sheet_bytes(rt, path)?;
    match toml::table_from_slice(rt.alloc(), text.as_slice()) {
        Ok(table) => match fault_of(rt, &table) {
            Some(fault) => Err(Stopped::at(path, fault)),
            None => Ok(table),
        },
        Err(error) if error.is_memory() => Err(Stopped::at(path, StopFault::NoMemory)),
        Err(_) => Err(Stopped::at(
            path,
            fault_in_words(rt, text.as_slice(), SheetFault::NotToml),
        )),
    }
}

/// Tells standard error what of a sheet's stations can't be begun with: by its place, and what it is.
pub fn tell_station<'a>(
    rt: &HostRuntime,
    path: &'a str,
    why: SheetFault,
    place: &str,
    words: &str,
) -> Stopped<'a> {
    if let Some(number) = why.number() {
        let _ = writeln!(rt.stderr(), "sheet: {number} {why}: {place}: {words}");
    }
    Stopped::at(path, StopFault::SheetTold)
}
