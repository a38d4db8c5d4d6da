//! Whether an event can be taken, before anything is done.

ghost use Rattle.std.specs.Prelude.{◌≡◌, ◌+◌, ◌≤◌, ◌⊎◌, IfErr, OnOk, None, Some, length, vec_capacity, vec_len, true};
ghost use Rattle.schedule_replay.specs.Refusals.{asks_down, asks_up, first_cause, may_send, no_message};

use crate::seen::WorldRefusal;
use headline::Event;
use wire::Datagram;

/// The largest number of sent messages that leaves room for those of one event.
const MOST_SENT: usize = 65_534;

fn asks_up(event: &Event) -> bool
    ensures { result ≡ asks_up event.now }
{
    matches!(
        event,
        Event::Pen(..) | Event::Tick(_) | Event::Give(..) | Event::Kill(_)
    )
}

fn asks_down(event: &Event) -> bool
    ensures { result ≡ asks_down event.now }
{
    matches!(event, Event::Open(_) | Event::Migrate(_))
}

fn may_send(event: &Event) -> bool
    ensures { result ≡ may_send event.now }
{
    matches!(event, Event::Pen(..) | Event::Tick(_) | Event::Give(..))
}

fn no_message(event: &Event, sent: usize) -> bool
    ensures { result ≡ no_message sent event.now }
{
    match *event {
        Event::Give(message, _) => sent <= message as usize,
        _ => false,
    }
}

/// Returns the first cause against an event, by whether its station is missing or down, and by how many messages were sent.
fn first_cause(event: &Event, missing: bool, down: bool, sent: usize) -> Option<WorldRefusal>
    ensures { result ≡ first_cause missing down sent event.now }
{
    if missing {
        Some(WorldRefusal::NoStation)
    } else if asks_up(event) && down {
        Some(WorldRefusal::Down)
    } else if asks_down(event) && !down {
        Some(WorldRefusal::Up)
    } else if no_message(event, sent) {
        Some(WorldRefusal::NoMessage)
    } else if may_send(event) && MOST_SENT < sent {
        Some(WorldRefusal::WorldFull)
    } else {
        None
    }
}

/// Refuses an event if a cause bars it; otherwise makes room for the messages that it may hand out.
pub fn admit(
    event: &Event,
    missing: bool,
    down: bool,
    sent: &mut Vec<Datagram>,
) -> Result<(), WorldRefusal>
    ensures admitted { OnOk result (first_cause missing down (length sent.old.items) event.now ≡ None) }
    ensures room { OnOk result (may_send event.now ≡ true → vec_len sent.new + 2 ≤ vec_capacity sent.new) }
    ensures refused { IfErr result (λ why.
        (first_cause missing down (length sent.old.items) event.now ≡ Some why)
        ⊎ ((first_cause missing down (length sent.old.items) event.now ≡ None) × (why ≡ WorldRefusal.NoMemory)
        × (may_send event.now ≡ true))) }
    ensures items { sent.new.items ≡ sent.old.items }
{
    if let Some(why) = first_cause(event, missing, down, sent.len()) {
        return Err(why);
    }
    if may_send(event) {
        sent.reserve(2)?;
    }
    Ok(())
}
