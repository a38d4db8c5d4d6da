//! Reading the table `limits` of a sheet's document.

ghost use Rattle.std.specs.Prelude.{◌≡◌, ◌≢◌, ◌≤◌, [], None, Some, Err, Ok, IfErr, IfOk, option_map, codes, false};
ghost use Rattle.toml.specs.Data.{get_member};
ghost use Rattle.toml.specs.View.{array_view, table_view, view};
ghost use Rattle.limits.specs.Reading as reads;
ghost use Rattle.limits.specs.Reading.{Reads};

use crate::allowed::Limits;
use crate::key::Key;
use crate::powerplay::Powerplay;
use crate::unfit::Unfit;
use std::alloc::Global;
use toml::value::Array;
use toml::{Table, Value};

/// The largest number of overs that a sheet may give.
const MOST_OVERS: u64 = 450;

/// Returns the value at a key, if there is one.
fn value_at<'a>(table: &'a Table, key: &str) -> Option<&'a Value>
    ensures { option_map (λ value. view value.now) result ≡ get_member key.now (table_view table.now) }
{
    table.get(key)
}

/// Reads a number of overs, 1 to 450.
fn number_of(value: &Value) -> Result<u16, Unfit>
    ensures value { Reads (λ n. n) result (reads.number_of (view value.now)) }
    ensures read { result ≢ Err Unfit.NoMemory }
{
    let number = match value.as_integer() {
        Some(number) => number,
        None => return Err(Unfit::OtherKind),
    };
    match u64::try_from(number) {
        Ok(number) if 1 <= number && number <= MOST_OVERS => Ok(number as u16),
        _ => Err(Unfit::OutOfRange),
    }
}

/// Reads the items of an array, each a number of overs.
fn numbers_of(alloc: Global, items: &Array) -> Result<Vec<u16>, Unfit>
    ensures { Reads (λ numbers. numbers.items) result (reads.numbers_of (array_view items.now)) }
{
    let mut numbers = Vec::new(alloc);
    for item in items {
        numbers.push(number_of(item)?)?;
    }
    Ok(numbers)
}

/// Reads one number of overs as a list.
fn one_number(alloc: Global, value: &Value) -> Result<Vec<u16>, Unfit>
    ensures { Reads (λ numbers. numbers.items) result (reads.one_number (view value.now)) }
{
    let number = number_of(value)?;
    let mut numbers = Vec::new(alloc);
    numbers.push(number)?;
    Ok(numbers)
}

/// Reads the overs of each innings: a list, or one number for all of them.
fn overs_of(alloc: Global, value: &Value) -> Result<Vec<u16>, Unfit>
    ensures { Reads (λ numbers. numbers.items) result (reads.overs_of (view value.now)) }
{
    match value.as_array() {
        Some(items) => numbers_of(alloc, items),
        None => one_number(alloc, value),
    }
}

fn flag_of(value: &Value) -> Result<bool, Unfit>
    ensures value { Reads (λ flag. flag) result (reads.flag_of (view value.now)) }
    ensures read { result ≢ Err Unfit.NoMemory }
{
    match value.as_bool() {
        Some(flag) => Ok(flag),
        None => Err(Unfit::OtherKind),
    }
}

/// Reads a powerplay from its first and last over.
fn two_numbers(first: &Value, last: &Value) -> Result<Powerplay, Unfit>
    ensures { Reads (λ powerplay. powerplay) result (reads.two_numbers (view first.now) (view last.now)) }
{
    let first = number_of(first)?;
    let last = number_of(last)?;
    if first <= last {
        Ok(Powerplay { first, last })
    } else {
        Err(Unfit::OutOfRange)
    }
}

/// Reads a powerplay from an array of two items.
fn pair_of(items: &Array) -> Result<Powerplay, Unfit>
    ensures { Reads (λ powerplay. powerplay) result (reads.pair_of (array_view items.now)) }
{
    let Some((first, more)) = items.as_slice().split_first() else {
        return Err(Unfit::OtherKind);
    };
    let Some((last, rest)) = more.split_first() else {
        return Err(Unfit::OtherKind);
    };
    match rest.split_first() {
        None => two_numbers(first, last),
        Some(_) => Err(Unfit::OtherKind),
    }
}

fn powerplay_of(value: &Value) -> Result<Powerplay, Unfit>
    ensures { Reads (λ powerplay. powerplay) result (reads.powerplay_of (view value.now)) }
{
    match value.as_array() {
        Some(items) => pair_of(items),
        None => Err(Unfit::OtherKind),
    }
}

/// Reads the items of an array, each a powerplay.
fn each_powerplay(alloc: Global, items: &Array) -> Result<Vec<Powerplay>, Unfit>
    ensures { Reads (λ powerplays. powerplays.items) result (reads.each_powerplay (array_view items.now)) }
{
    let mut powerplays = Vec::new(alloc);
    for item in items {
        powerplays.push(powerplay_of(item)?)?;
    }
    Ok(powerplays)
}

fn powerplays_of(alloc: Global, value: &Value) -> Result<Vec<Powerplay>, Unfit>
    ensures { Reads (λ powerplays. powerplays.items) result (reads.powerplays_of (view value.now)) }
{
    match value.as_array() {
        Some(items) => each_powerplay(alloc, items),
        None => Err(Unfit::OtherKind),
    }
}

/// Reads the overs of each innings, in order; an empty list if the key is absent.
fn overs_at(alloc: Global, table: &Table) -> Result<Vec<u16>, Unfit>
    ensures { Reads (λ numbers. numbers.items) result (reads.overs_at (table_view table.now)) }
{
    match value_at(table, "overs") {
        Some(value) => overs_of(alloc, value),
        None => Ok(Vec::new(alloc)),
    }
}

/// Reads how many overs a bowler may bowl, if the key is there.
fn a_bowler_at(table: &Table) -> Result<Option<u16>, Unfit>
    ensures value { Reads (λ overs. overs) result (reads.a_bowler_at (table_view table.now)) }
    ensures read { result ≢ Err Unfit.NoMemory }
{
    match value_at(table, "overs_a_bowler") {
        Some(value) => Ok(Some(number_of(value)?)),
        None => Ok(None),
    }
}

fn free_hits_at(table: &Table) -> Result<bool, Unfit>
    ensures value { Reads (λ flag. flag) result (reads.free_hits_at (table_view table.now)) }
    ensures read { result ≢ Err Unfit.NoMemory }
{
    match value_at(table, "free_hits") {
        Some(value) => flag_of(value),
        None => Ok(false),
    }
}

fn powerplays_at(alloc: Global, table: &Table) -> Result<Vec<Powerplay>, Unfit>
    ensures { Reads (λ powerplays. powerplays.items) result (reads.powerplays_at (table_view table.now)) }
{
    match value_at(table, "powerplays") {
        Some(value) => powerplays_of(alloc, value),
        None => Ok(Vec::new(alloc)),
    }
}

/// Reads the overs of each innings, or none if the key is unfit. It fails only if an allocation fails.
fn fit_overs(alloc: Global, table: &Table) -> Result<Vec<u16>, Unfit>
    ensures value { IfOk result (λ numbers. numbers.items ≡ reads.fit_or [] (reads.overs_at (table_view table.now))) }
    ensures only { IfErr result (λ why. why ≡ Unfit.NoMemory) }
{
    match overs_at(alloc, table) {
        Ok(overs) => Ok(overs),
        Err(Unfit::NoMemory) => Err(Unfit::NoMemory),
        Err(Unfit::OtherKind) => Ok(Vec::new(alloc)),
        Err(Unfit::OutOfRange) => Ok(Vec::new(alloc)),
    }
}

/// Reads the powerplays, or none if the key is unfit. It fails only if an allocation fails.
fn fit_powerplays(alloc: Global, table: &Table) -> Result<Vec<Powerplay>, Unfit>
    ensures value { IfOk result (λ powerplays.
        powerplays.items ≡ reads.fit_or [] (reads.powerplays_at (table_view table.now))) }
    ensures only { IfErr result (λ why. why ≡ Unfit.NoMemory) }
{
    match powerplays_at(alloc, table) {
        Ok(powerplays) => Ok(powerplays),
        Err(Unfit::NoMemory) => Err(Unfit::NoMemory),
        Err(Unfit::OtherKind) => Ok(Vec::new(alloc)),
        Err(Unfit::OutOfRange) => Ok(Vec::new(alloc)),
    }
}

fn fit_a_bowler(table: &Table) -> Option<u16>
    ensures { result ≡ reads.fit_or None (reads.a_bowler_at (table_view table.now)) }
{
    match a_bowler_at(table) {
        Ok(overs) => overs,
        Err(_) => None,
    }
}

fn fit_free_hits(table: &Table) -> bool
    ensures { result ≡ reads.fit_or false (reads.free_hits_at (table_view table.now)) }
{
    match free_hits_at(table) {
        Ok(flag) => flag,
        Err(_) => false,
    }
}

/// Reads the limits from the table. It fails only if an allocation fails.
fn limits_from(alloc: Global, table: &Table) -> Result<Limits, Unfit>
    ensures value { IfOk result (λ limits. limits ≡ reads.limits_from (table_view table.now)) }
    ensures only { IfErr result (λ why. why ≡ Unfit.NoMemory) }
{
    let overs = fit_overs(alloc, table)?;
    let powerplays = fit_powerplays(alloc, table)?;
    Ok(Limits::new(overs, fit_a_bowler(table), fit_free_hits(table), powerplays))
}

/// Returns the table `limits` of a document, if it has one.
fn table_of(document: &Table) -> Option<&Table>
    ensures { option_map (λ table. table_view table.now) result ≡ reads.table_of (table_view document.now) }
{
    match value_at(document, "limits") {
        Some(value) => value.as_table(),
        None => None,
    }
}

/// Reads a sheet's limits from the table `limits` of its document. Its keys are `overs`, one number or one for each innings in
/// order, the last of which holds for later innings too; `overs_a_bowler`, a number; `free_hits`, true or false; and
/// `powerplays`, a list of pairs of first and last over. Numbers are 1 to 450. An unfit key is treated as absent. It fails
/// only if an allocation fails.
pub fn read_limits(alloc: Global, document: &Table) -> Result<Limits, Unfit>
    ensures value { IfOk result (λ limits. limits ≡ reads.limits_in (table_view document.now)) }
    ensures only { IfErr result (λ why. why ≡ Unfit.NoMemory) }
{
    match table_of(document) {
        Some(table) => limits_from(alloc, table),
        None => Ok(Limits::none(alloc)),
    }
}

/// Returns why a value can't be the table, if it can't.
fn checked_table(value: &Value) -> Option<Unfit>
    ensures { result ≡ reads.checked_table (view value.now) }
{
    match value.as_table() {
        Some(_) => None,
        None => Some(Unfit::OtherKind),
    }
}

/// Returns why the value of `limits` itself is unfit, if it is.
fn table_unfit(document: &Table) -> Option<Unfit>
    ensures { result ≡ reads.unfit_in Key.Table (table_view document.now) }
{
    match value_at(document, "limits") {
        Some(value) => checked_table(value),
        None => None,
    }
}

fn overs_unfit(alloc: Global, table: &Table) -> Option<Unfit>
    ensures { result ≢ Some Unfit.NoMemory → result ≡ reads.why_not (reads.overs_at (table_view table.now)) }
{
    match overs_at(alloc, table) {
        Ok(_) => None,
        Err(why) => Some(why),
    }
}

fn a_bowler_unfit(table: &Table) -> Option<Unfit>
    ensures { result ≢ Some Unfit.NoMemory → result ≡ reads.why_not (reads.a_bowler_at (table_view table.now)) }
{
    match a_bowler_at(table) {
        Ok(_) => None,
        Err(why) => Some(why),
    }
}

fn free_hits_unfit(table: &Table) -> Option<Unfit>
    ensures { result ≢ Some Unfit.NoMemory → result ≡ reads.why_not (reads.free_hits_at (table_view table.now)) }
{
    match free_hits_at(table) {
        Ok(_) => None,
        Err(why) => Some(why),
    }
}

fn powerplays_unfit(alloc: Global, table: &Table) -> Option<Unfit>
    ensures { result ≢ Some Unfit.NoMemory → result ≡ reads.why_not (reads.powerplays_at (table_view table.now)) }
{
    match powerplays_at(alloc, table) {
        Ok(_) => None,
        Err(why) => Some(why),
    }
}

/// Returns why a key of the table is unfit, if it is.
fn key_unfit(alloc: Global, table: &Table, key: Key) -> Option<Unfit>
    ensures { result ≢ Some Unfit.NoMemory → result ≡ reads.key_unfit key (table_view table.now) }
{
    match key {
        Key::Table => None,
        Key::Overs => overs_unfit(alloc, table),
        Key::OversABowler => a_bowler_unfit(table),
        Key::FreeHits => free_hits_unfit(table),
        Key::Powerplays => powerplays_unfit(alloc, table),
    }
}

/// Returns why a key is unfit, if it is, in a document that may have no table `limits`.
fn unfit_in_table(alloc: Global, document: &Table, key: Key) -> Option<Unfit>
    ensures { result ≢ Some Unfit.NoMemory → result ≡ reads.unfit_in_table key (table_view document.now) }
{
    match table_of(document) {
        Some(table) => key_unfit(alloc, table, key),
        None => None,
    }
}

/// Returns why the key `limits` of a sheet's document, or a key of that table, is unfit, if it is. `NoMemory` means that
/// an allocation failed, so that whether the key is fit is unknown.
pub fn why_unfit(alloc: Global, document: &Table, key: Key) -> Option<Unfit>
    ensures { result ≢ Some Unfit.NoMemory → result ≡ reads.unfit_in key (table_view document.now) }
{
    match key {
        Key::Table => table_unfit(document),
        Key::Overs => unfit_in_table(alloc, document, key),
        Key::OversABowler => unfit_in_table(alloc, document, key),
        Key::FreeHits => unfit_in_table(alloc, document, key),
        Key::Powerplays => unfit_in_table(alloc, document, key),
    }
}
