//! What a browser's request asks for.

ghost use Rattle.std.specs.Prelude.{◌≡◌, false};

use crate::host::is_named;
use crate::page_texts::PageTexts;
use crate::station::Station;
use httparse::spans::{HeaderSpan, RequestSpans, Span};
use posts::{Pass, Stamp, tag_in};
use std::net::SocketAddr;
use std::str;

/// What a request asks for, by its head, or why it can't have it.
#[derive(Clone, Copy)]
pub enum Ask {
    /// The page itself.
    Page,
    /// A board's six lines.
    Lines,
    /// The state as JSON; a desk's is without what its scorer wrote.
    State,
    /// The items of a desk's book, as JSON.
    Book,
    /// The state now, and each new state as an event.
    Events,
    /// A nonce, which was given.
    Given(u64),
    /// A line was typed.
    Typed,
    /// Told that its pass is good: the page has the desk's secret.
    Signed,
    /// The secret of the desk's page, encrypted by the ticket of its square.
    Handed([u8; 16]),
    /// Nothing can be shown yet.
    Unready,
    /// No place is free.
    Full,
    /// A path that isn't here.
    Missing,
    /// A method that isn't allowed.
    Method,
    /// Another host.
    Foreign,
    /// Refused with this status, as for a head that isn't HTTP or is too long.
    Faulty(u16),
}

/// What is asked for, and whether only the head of the answer is.
#[derive(Clone, Copy)]
pub struct Asked {
    pub ask: Ask,
    pub is_head: bool,
}

impl Asked {
    /// Replaces the ask by `Full` if this viewer has no seat, and by `Unready` if no state was put yet.
    pub fn ready(self, shown: &PageTexts, is_behind: bool) -> Asked {
        let ask = match self.ask {
            Ask::Page | Ask::Lines | Ask::State | Ask::Book | Ask::Events if is_behind => Ask::Full,
            Ask::Lines | Ask::State | Ask::Book if shown.number == 0 => Ask::Unready,
            ask => ask,
        };
        Asked {
            ask,
            is_head: self.is_head,
        }
    }
}

/// What the head of a request asks to have done.
#[derive(Clone, Copy)]
pub enum Wish {
    /// An answer.
    Answer(Asked),
    /// A nonce of the desk's.
    Nonce,
    /// Events, with a pass.
    Watch(Pass),
    /// Whether a pass is good.
    Look(Pass),
    /// The secret of the desk's page.
    Claim(Claim),
    /// The line that follows is to be typed.
    Line(Heading),
}

impl Wish {
    /// Refuses a head with this status.
    pub fn refused(status: u16) -> Wish {
        Wish::Answer(Asked {
            ask: Ask::Faulty(status),
            is_head: false,
        })
    }
}

/// What the head of a post says about its line.
#[derive(Clone, Copy)]
pub struct Heading {
    /// Whether it comes from a page of this host, or from no page.
    pub is_from_here: bool,
    pub stamp: Option<Stamp>,
}

/// The head of a post that asks for the secret of the desk's page.
#[derive(Clone, Copy)]
pub struct Claim {
    /// Whether it comes from a page of this host, or from no page.
    pub is_from_here: bool,
    /// The tag made with a square's ticket.
    pub tag: Option<[u8; 32]>,
}

/// Returns the bytes of a span, or none if it is out of range.
pub fn bytes_at(input: &[u8], span: Span) -> &[u8] {
    match input.get(span.start..span.end) {
        Some(bytes) => bytes,
        None => b"".as_slice(),
    }
}

/// Returns the part of a target before its question mark.
fn path_of(target: &[u8]) -> &[u8] {
    match target.iter().position(|byte| *byte == b'?') {
        Some(end) => match target.get(..end) {
            Some(path) => path,
            None => target,
        },
        None => target,
    }
}

/// Returns the pass in a target, as `/events?nonce=7&tag=9f43..`, if it has one.
fn pass_in(target: &[u8]) -> Option<Pass> {
    let (_, query) = str::from_utf8(target).ok()?.split_once('?')?;
    let (nonce, tag) = query.strip_prefix("nonce=")?.split_once("&tag=")?;
    Pass::read(nonce, tag)
}

/// Returns the value of the first field of this name, if there is one.
fn field_in<'i>(input: &'i [u8], fields: &[HeaderSpan], name: &[u8]) -> Option<&'i [u8]> {
    for field in fields {
        if bytes_at(input, field.name).eq_ignore_ascii_case(name) {
            return Some(bytes_at(input, field.value));
        }
    }
    None
}

/// Returns the value of the first field of this name as a text; empty if there is none, or if it isn't UTF-8.
fn text_in<'i>(input: &'i [u8], fields: &[HeaderSpan], name: &[u8]) -> &'i str {
    match field_in(input, fields, name) {
        Some(value) => str::from_utf8(value).unwrap_or(""),
        None => "",
    }
}

/// Whether each `Origin` of a request is the host that the request names.
fn is_own_page(input: &[u8], fields: &[HeaderSpan], host: &[u8]) -> bool {
    for field in fields {
        if bytes_at(input, field.name).eq_ignore_ascii_case(b"origin") {
            match bytes_at(input, field.value).strip_prefix(b"http://".as_slice()) {
                Some(from) if from == host => {}
                _ => return false,
            }
        }
    }
    true
}

/// Returns what a path of a board's page asks for.
fn board_ask(path: &[u8]) -> Ask {
    if path == b"/".as_slice() {
        Ask::Page
    } else if path == b"/board.json".as_slice() {
        Ask::State
    } else if path == b"/board.txt".as_slice() {
        Ask::Lines
    } else if path == b"/events".as_slice() {
        Ask::Events
    } else {
        Ask::Missing
    }
}

/// Returns what a path of a desk's page asks for.
fn desk_ask(path: &[u8]) -> Ask {
    if path == b"/".as_slice() {
        Ask::Page
    } else if path == b"/desk.json".as_slice() {
        Ask::State
    } else if path == b"/book.json".as_slice() {
        Ask::Book
    } else if path == b"/events".as_slice() {
        Ask::Events
    } else {
        Ask::Missing
    }
}

/// Returns what a path of a station's page asks for.
fn ask_at(station: Station, path: &[u8]) -> Ask {
    match station {
        Station::Board => board_ask(path),
        Station::Desk => desk_ask(path),
    }
}

/// Returns what a request with this method and target asks for; `is_here` says whether it names this host.
pub fn asked_by(station: Station, method: &[u8], target: &[u8], is_here: bool) -> Asked
    ensures foreign { is_here ≡ false → result.ask ≡ Ask.Foreign }
{
    let is_head = method == b"HEAD".as_slice();
    let found = ask_at(station, path_of(target));
    let ask = if !is_here {
        Ask::Foreign
    } else if is_head && matches!(found, Ask::Events) {
        Ask::Method
    } else if is_head || method == b"GET".as_slice() {
        found
    } else {
        Ask::Method
    };
    Asked { ask, is_head }
}

/// Returns what a post to a desk asks to have done, by its path.
fn posted_to_desk(target: &[u8], input: &[u8], fields: &[HeaderSpan], host: &[u8]) -> Option<Wish> {
    let path = path_of(target);
    if path == b"/line".as_slice() {
        Some(Wish::Line(heading_in(input, fields, host)))
    } else if path == b"/secret".as_slice() {
        Some(Wish::Claim(claim_in(input, fields, host)))
    } else {
        None
    }
}

/// Returns what only a desk's own page asks for: a nonce, or something with a pass.
fn got_of_desk(target: &[u8]) -> Option<Wish> {
    let path = path_of(target);
    if path == b"/nonce".as_slice() {
        return Some(Wish::Nonce);
    }
    let pass = pass_in(target)?;
    if path == b"/events".as_slice() {
        Some(Wish::Watch(pass))
    } else if path == b"/signed".as_slice() {
        Some(Wish::Look(pass))
    } else {
        None
    }
}

/// Reads what the head of a post says about its line.
fn heading_in(input: &[u8], fields: &[HeaderSpan], host: &[u8]) -> Heading {
    let at = text_in(input, fields, b"x-at");
    let nonce = text_in(input, fields, b"x-nonce");
    let tag = text_in(input, fields, b"x-tag");
    Heading {
        is_from_here: is_own_page(input, fields, host),
        stamp: Stamp::read(at, nonce, tag),
    }
}

/// Reads the head of a post that asks for the secret.
fn claim_in(input: &[u8], fields: &[HeaderSpan], host: &[u8]) -> Claim {
    Claim {
        is_from_here: is_own_page(input, fields, host),
        tag: tag_in(text_in(input, fields, b"x-tag")),
    }
}

/// Returns what a request to a station's page at this address asks to have done.
pub fn wish_in(
    station: Station,
    input: &[u8],
    head: &RequestSpans,
    fields: &[HeaderSpan],
    at: SocketAddr,
) -> Wish {
    let method = bytes_at(input, head.method);
    let target = bytes_at(input, head.path);
    let host = field_in(input, fields, b"host").unwrap_or(b"");
    if !is_named(host, at) {
        return Wish::Answer(asked_by(station, method, target, false));
    }
    let wish = match station {
        Station::Board => None,
        Station::Desk if method == b"POST".as_slice() => posted_to_desk(
            target, input, fields, host,
        ),
        Station::Desk if method == b"GET".as_slice() => got_of_desk(target),
        Station::Desk => None,
    };
    match wish {
        Some(wish) => wish,
        None => Wish::Answer(asked_by(station, method, target, true)),
    }
}
