//! A schedule as text.

ghost use Rattle.std.specs.Prelude.{◌≡◌, ◌⊎◌, ◌++◌, All, Err, IfErr, IfOk, List, MatchResult, Ok, OnErr, OnOk, [], ◌∷◌};
ghost use Rattle.notation.specs.Lines.{lines_of};
ghost use Rattle.headline.specs.Events.{IsEvent};
ghost use Rattle.schedules.specs.ScheduleLines.{HasFault, IsScheduleOf};
ghost use Rattle.schedules.specs.inner.ScheduleReading.{line_says};
ghost use Rattle.headline.specs.declared.event.Event.{Event};
ghost use Rattle.schedules.specs.declared.schedule_fault.ScheduleFault.TheVariants.{NoMemory};

use crate::event_line::read_event;
use crate::schedule_fault::ScheduleFault;
use headline::Event;
use notation::Lines;
use std::alloc::Global;

/// Adds the event of one more line, or returns the line's fault.
fn take_line(events: &mut Vec<Event>, line: &[u8], number: u64) -> Result<(), ScheduleFault>
    ensures taken { OnOk result ((event : Event) × (line_says number line.now ≡ Ok event)
        × (events.new.items ≡ events.old.items ++ event ∷ [])) }
    ensures wrong { IfErr result (λ why. (why ≡ NoMemory) ⊎ (line_says number line.now ≡ Err why)) }
    ensures stays { OnErr result (events.new.items ≡ events.old.items) }
{
    let event = read_event(line, number)?;
    events.extend_from_slice(&[event])?;
    Ok(())
}

/// Adds the events of all lines, up to the first fault.
fn take_lines(events: &mut Vec<Event>, bytes: &[u8]) -> Result<(), ScheduleFault>
    requires empty { events.old.items ≡ [] }
    ensures found { OnOk result (IsScheduleOf (lines_of bytes.now) events.new.items) }
    ensures only { (others : List Event) → IsScheduleOf (lines_of bytes.now) others
        → MatchResult result (λ _. events.new.items ≡ others) (λ fault. fault ≡ NoMemory) }
    ensures fault { IfErr result (HasFault (lines_of bytes.now)) }
{
    let mut lines = Lines::new(bytes);
    let mut number = 0;
    while let Some(line) = lines.next() {
        number += 1;
        match take_line(events, line, number) {
            Ok(()) => {}
            Err(fault) => return Err(fault),
        }
    }
    Ok(())
}

/// Reads a schedule: one event a line, as `pen D <entry line>`, `tick X`, `give m X`, `kill D`, `power D lost`, `power D kept`,
/// `power D fill v`, `fail D n`, `stop D n`, `open D`, `wipe X`, `migrate D`. A desk D is `a` or `b`, a station X a desk or a
/// board from `1` to `4` (`wipe` takes only a board); message m is 0 to 65535, v 0 to 255, n 1 to 1000. One space stands
/// between words, and a last empty line is allowed.
pub fn read_schedule(alloc: Global, bytes: &[u8]) -> Result<Vec<Event>, ScheduleFault>
    // The lines are those of the events read,
    ensures found { IfOk result (λ events. IsScheduleOf (lines_of bytes.now) events.items) }
    // and of no others.
    ensures only { (events : List Event) → IsScheduleOf (lines_of bytes.now) events
        → MatchResult result (λ read. read.items ≡ events) (λ fault. fault ≡ NoMemory) }
    // Which line is the first at fault, and why.
    ensures fault { IfErr result (HasFault (lines_of bytes.now)) }
    // The events are ones that a world takes.
    ensures events { IfOk result (λ events. All IsEvent events.items) }
{
    let mut events = Vec::new(alloc);
    match take_lines(&mut events, bytes) {
        Ok(()) => Ok(events),
        Err(fault) => Err(fault),
    }
}
