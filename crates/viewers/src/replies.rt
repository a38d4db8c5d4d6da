//! The responses that a viewer is sent.

ghost use Rattle.std.specs.Prelude.{◌≡◌, ◌<◌, ◌^◌, ◌++◌, [], IfOk, None, OnOk, codes, decimal, length};
ghost use Rattle.hex.specs.Hex.{encode_lower};
ghost use Rattle.http1.specs.Head.{pairs};
ghost use Rattle.http1.specs.Server.{after_response, planned_response, response_refusal, writing};
ghost use Rattle.http1.specs.Conn.{after_data, data_refusal, data_text, finish_refusal, finish_text};
ghost use Rattle.viewers.specs.Responses.{IsResponse};
ghost use Rattle.viewers.specs.Replies as texts;

use crate::asks::Ask;
use crate::page_texts::PageTexts;
use crate::station::{Station, page_of, policy_of};
use hex::encode_to_slice;
use http1::{BodySize, Header, Server, WriteError};
use itoa::Buffer;
use std::alloc::{AllocError, Global};

const HTML: &[u8] = b"text/html; charset=utf-8";

const JSON: &[u8] = b"application/json";

const TEXT: &[u8] = b"text/plain; charset=utf-8";

const STREAM: &[u8] = b"text/event-stream";

/// The event which says that the board is there when nothing is new.
const BEAT: &[u8] = b"event: beat\ndata: -\n\n";

/// Returns the methods allowed at a station's page.
fn allowed_at(station: Station) -> &'static [u8]
    ensures { result.now ≡ texts.allowed_at station }
{
    match station {
        Station::Board => b"GET, HEAD",
        Station::Desk => b"GET, HEAD, POST",
    }
}

/// Returns the field `Retry-After` in seconds for status 503, and otherwise the methods allowed.
fn hint_of(station: Station, status: u16) -> Header<'static>
    ensures { (result.name.now, result.value.now) ≡ texts.hint_of station status }
{
    if status == 503 {
        Header {
            name: b"retry-after",
            value: b"2",
        }
    } else {
        Header {
            name: b"allow",
            value: allowed_at(station),
        }
    }
}

/// Returns the header fields of a response with this status and content type.
fn fields_of(station: Station, status: u16, kind: &[u8]) -> [Header<'_>; 7]
    ensures { pairs result ≡ texts.fields_of station status kind.now }
{
    [
        Header {
            name: b"content-type",
            value: kind,
        },
        Header {
            name: b"cache-control",
            value: b"no-store",
        },
        Header {
            name: b"x-content-type-options",
            value: b"nosniff",
        },
        Header {
            name: b"referrer-policy",
            value: b"no-referrer",
        },
        Header {
            name: b"content-security-policy",
            value: policy_of(station),
        },
        hint_of(station, status),
        Header {
            name: b"connection",
            value: b"close",
        },
    ]
}

/// The head of a response: its status and reason, and the type of the text that follows.
#[derive(Clone, Copy)]
struct Head<'a> {
    status: u16,
    reason: &'a [u8],
    kind: &'a [u8],
}

/// Returns a head, for a text of this size.
fn front(
    alloc: Global,
    server: &mut Server,
    station: Station,
    head: Head<'_>,
    size: BodySize,
) -> Result<Vec<u8>, WriteError>
    ensures text { IfOk result (λ bytes.
        bytes.items ≡ planned_response server.old head.entry.status head.entry.reason.now size (texts.fields_of station head.entry.status head.entry.kind.now)) }
    ensures next { OnOk result (server.new ≡ after_response server.old head.entry.status size (texts.fields_of station head.entry.status head.entry.kind.now)) }
    ensures taken { OnOk result
        (response_refusal server.old head.entry.status head.entry.reason.now size (texts.fields_of station head.entry.status head.entry.kind.now) ≡ None) }
{
    let fields = fields_of(station, head.status, head.kind);
    let mut out = Vec::new(alloc);
    server.write_response(&mut out, head.status, head.reason, &fields, size)?;
    Ok(out)
}

/// Appends a whole text to its head.
fn put_text(server: &mut Server, out: &mut Vec<u8>, text: &[u8]) -> Result<(), WriteError>
    ensures text { OnOk result (out.new.items ≡ out.old.items ++ data_text (writing server.old) text.now
        ++ finish_text (after_data (writing server.old) (length text.now)) []) }
    ensures short { length text.now < 2 ^ 64 }
    ensures fits { OnOk result (data_refusal (writing server.old) (length text.now) ≡ None) }
    ensures ends { OnOk result
        (finish_refusal (after_data (writing server.old) (length text.now)) [] ≡ None) }
{
    server.write_data(out, text)?;
    server.write_end(out, &[])
}

/// Returns the text that is sent: none if only the head is asked for.
fn sent_of(text: &[u8], is_head: bool) -> &[u8]
    ensures { result.now ≡ texts.sent_of text.now is_head }
{
    if is_head { &text[..0] } else { text }
}

/// Returns a head followed by a whole text, or only the head.
fn whole(
    alloc: Global,
    server: &mut Server,
    station: Station,
    head: Head<'_>,
    text: &[u8],
    is_head: bool,
) -> Result<Vec<u8>, WriteError>
    ensures text { IfOk result (λ bytes.
        bytes.items ≡ texts.whole_text server.old station head.entry.status head.entry.reason.now head.entry.kind.now text.now is_head) }
    ensures http { IfOk result (λ bytes. IsResponse server.old head.entry.status head.entry.reason.now
        (texts.fields_of station head.entry.status head.entry.kind.now) (texts.sent_of text.now is_head) bytes.items) }
{
    let size = BodySize::Known(text.len() as u64);
    let mut out = front(alloc, server, station, head, size)?;
    put_text(server, &mut out, sent_of(text, is_head))?;
    Ok(out)
}

/// An answer of one line: its status and reason, and the line.
#[derive(Clone, Copy)]
struct ShortAnswer {
    status: u16,
    reason: &'static [u8],
    line: &'static [u8],
}

/// A line was taken.
const TYPED: ShortAnswer = ShortAnswer {
    status: 200,
    reason: b"OK",
    line: b"typed\n",
};

/// The page still has the desk's secret.
const SIGNED: ShortAnswer = ShortAnswer {
    status: 200,
    reason: b"OK",
    line: b"signed\n",
};

/// There is nothing to show yet.
const UNREADY: ShortAnswer = ShortAnswer {
    status: 503,
    reason: b"Not Yet",
    line: b"no score yet\n",
};

/// All seats are taken.
const FULL: ShortAnswer = ShortAnswer {
    status: 503,
    reason: b"Full",
    line: b"no place is free\n",
};

const MISSING: ShortAnswer = ShortAnswer {
    status: 404,
    reason: b"Not Found",
    line: b"not here\n",
};

const METHOD: ShortAnswer = ShortAnswer {
    status: 405,
    reason: b"Not Allowed",
    line: b"only GET\n",
};

const FOREIGN: ShortAnswer = ShortAnswer {
    status: 403,
    reason: b"Forbidden",
    line: b"another host\n",
};

/// Returns a short answer as a whole response.
fn short_answer(
    alloc: Global,
    server: &mut Server,
    station: Station,
    short: ShortAnswer,
    is_head: bool,
) -> Result<Vec<u8>, WriteError>
    ensures { IfOk result (λ bytes. bytes.items ≡
        texts.whole_text server.old station short.status short.reason.now texts.plain short.line.now is_head) }
{
    let head = Head {
        status: short.status,
        reason: short.reason,
        kind: TEXT,
    };
    whole(alloc, server, station, head, short.line, is_head)
}

/// Refuses a request with this status.
fn refused(
    alloc: Global,
    server: &mut Server,
    station: Station,
    status: u16,
    is_head: bool,
) -> Result<Vec<u8>, WriteError>
    ensures { IfOk result (λ bytes. bytes.items ≡
        texts.whole_text server.old station status (codes "Refused") texts.plain (codes "refused\n") is_head) }
{
    let refused = ShortAnswer {
        status,
        reason: b"Refused",
        line: b"refused\n",
    };
    short_answer(alloc, server, station, refused, is_head)
}

/// Returns the page.
fn page(
    alloc: Global,
    server: &mut Server,
    station: Station,
    is_head: bool,
) -> Result<Vec<u8>, WriteError>
    ensures { IfOk result (λ bytes. bytes.items ≡ texts.page_text server.old station is_head) }
{
    let head = Head {
        status: 200,
        reason: b"OK",
        kind: HTML,
    };
    whole(alloc, server, station, head, page_of(station), is_head)
}

/// Returns one of the texts that are shown.
fn shown_text(
    alloc: Global,
    server: &mut Server,
    station: Station,
    kind: &[u8],
    text: &[u8],
    is_head: bool,
) -> Result<Vec<u8>, WriteError>
    ensures { IfOk result (λ bytes.
        bytes.items ≡ texts.whole_text server.old station 200 (codes "OK") kind.now text.now is_head) }
{
    let head = Head {
        status: 200,
        reason: b"OK",
        kind,
    };
    whole(alloc, server, station, head, text, is_head)
}

/// Returns the head of a stream: states follow for as long as the viewer stays.
fn stream(alloc: Global, server: &mut Server, station: Station) -> Result<Vec<u8>, WriteError>
    ensures { IfOk result (λ bytes. bytes.items ≡ texts.stream_text server.old station) }
{
    let head = Head {
        status: 200,
        reason: b"OK",
        kind: STREAM,
    };
    front(alloc, server, station, head, BodySize::Unknown)
}

fn nonce_line(alloc: Global, nonce: u64) -> Result<Vec<u8>, AllocError>
    ensures { IfOk result (λ line. line.items ≡ decimal nonce ++ codes "\n") }
{
    let mut digits = Buffer::new();
    let mut line = Vec::new(alloc);
    line.extend_from_slice(digits.format(nonce).as_bytes())?;
    line.extend_from_slice(b"\n")?;
    Ok(line)
}

/// Returns a nonce, as a text of one line.
fn nonce_text(
    alloc: Global,
    server: &mut Server,
    station: Station,
    nonce: u64,
) -> Result<Vec<u8>, WriteError>
    ensures { IfOk result (λ bytes. bytes.items ≡ texts.nonce_text server.old station nonce) }
{
    let head = Head {
        status: 200,
        reason: b"OK",
        kind: TEXT,
    };
    match nonce_line(alloc, nonce) {
        Ok(line) => whole(alloc, server, station, head, line.as_slice(), false),
        Err(_) => Err(WriteError::OutOfMemory),
    }
}

/// Returns an encrypted secret in hex digits, as one line.
fn handed_line(hidden: &[u8; 16]) -> [u8; 33]
    ensures { result ≡ encode_lower hidden.now ++ codes "\n" }
{
    let mut text = [b'\n'; 33];
    let _ = encode_to_slice(hidden.as_slice(), &mut text[..32]);
    text
}

/// Returns an encrypted secret, as a text of one line.
fn handed_text(
    alloc: Global,
    server: &mut Server,
    station: Station,
    hidden: &[u8; 16],
) -> Result<Vec<u8>, WriteError>
    ensures { IfOk result (λ bytes. bytes.items ≡ texts.handed_text server.old station hidden.now) }
{
    let line = handed_line(hidden);
    let head = Head {
        status: 200,
        reason: b"OK",
        kind: TEXT,
    };
    whole(alloc, server, station, head, &line[..], false)
}

/// Returns the answer to a request while these texts are shown.
pub fn reply(
    alloc: Global,
    server: &mut Server,
    ask: Ask,
    head: bool,
    shown: &PageTexts,
) -> Result<Vec<u8>, WriteError>
    ensures { IfOk result (λ bytes. bytes.items ≡ texts.answer_text server.old ask head shown.now) }
{
    let station = shown.station;
    match ask {
        Ask::Page => page(alloc, server, station, head),
        Ask::Lines => shown_text(alloc, server, station, TEXT, shown.lines.as_slice(), head),
        Ask::State => shown_text(alloc, server, station, JSON, shown.state.as_slice(), head),
        Ask::Book => shown_text(alloc, server, station, JSON, shown.book.as_slice(), head),
        Ask::Events => stream(alloc, server, station),
        Ask::Given(nonce) => nonce_text(alloc, server, station, nonce),
        Ask::Typed => short_answer(alloc, server, station, TYPED, head),
        Ask::Signed => short_answer(alloc, server, station, SIGNED, head),
        Ask::Handed(hidden) => handed_text(alloc, server, station, &hidden),
        Ask::Unready => short_answer(alloc, server, station, UNREADY, head),
        Ask::Full => short_answer(alloc, server, station, FULL, head),
        Ask::Missing => short_answer(alloc, server, station, MISSING, head),
        Ask::Method => short_answer(alloc, server, station, METHOD, head),
        Ask::Foreign => short_answer(alloc, server, station, FOREIGN, head),
        Ask::Faulty(status) => refused(alloc, server, station, status, head),
    }
}

/// Returns a text that ends with a line feed as an event with its number.
fn event_of(alloc: Global, number: u64, text: &[u8]) -> Result<Vec<u8>, AllocError>
    ensures { IfOk result (λ bytes. bytes.items ≡ texts.event_of number text.now) }
{
    let mut digits = Buffer::new();
    let mut out = Vec::new(alloc);
    out.extend_from_slice(b"id: ")?;
    out.extend_from_slice(digits.format(number).as_bytes())?;
    out.extend_from_slice(b"\ndata: ")?;
    out.extend_from_slice(text)?;
    out.extend_from_slice(b"\n")?;
    Ok(out)
}

/// Returns what is shown as an event: the encrypted text for a signed viewer, the state for any other.
fn event(alloc: Global, is_signed: bool, shown: &PageTexts) -> Result<Vec<u8>, AllocError>
    ensures { IfOk result (λ bytes. bytes.items ≡ texts.event is_signed shown.now) }
{
    if is_signed {
        event_of(alloc, shown.veiled.number, shown.veiled.text.as_slice())
    } else {
        event_of(alloc, shown.number, shown.state.as_slice())
    }
}

/// Returns a piece of a stream.
fn piece(alloc: Global, server: &mut Server, text: &[u8]) -> Result<Vec<u8>, WriteError>
    ensures { IfOk result (λ bytes. bytes.items ≡ data_text (writing server.old) text.now) }
{
    let mut out = Vec::new(alloc);
    server.write_data(&mut out, text)?;
    Ok(out)
}

/// Returns what is shown, for a viewer who watches and is signed or isn't.
pub fn told(
    alloc: Global,
    server: &mut Server,
    is_signed: bool,
    shown: &PageTexts,
) -> Result<Vec<u8>, WriteError>
    ensures { IfOk result (λ bytes. bytes.items ≡ texts.told_text server.old is_signed shown.now) }
{
    match event(alloc, is_signed, shown) {
        Ok(event) => piece(alloc, server, event.as_slice()),
        Err(_) => Err(WriteError::OutOfMemory),
    }
}

/// Returns a beat, for a viewer who watches.
pub fn beat(alloc: Global, server: &mut Server) -> Result<Vec<u8>, WriteError>
    ensures { IfOk result (λ bytes. bytes.items ≡ texts.beat_text server.old) }
{
    piece(alloc, server, BEAT)
}
