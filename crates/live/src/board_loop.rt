//! A board's process.

ghost use Rattle.std.specs.Prelude.{◌≡◌, ◌<◌, ◌+◌, ℕ, true, false, if◌then◌else◌, Option, Some, None, Ok, List, [], ◌∷◌, ◌++◌, ◌⊎◌, IfSome, IsSome, OnErr, OnOk, is_some, length, nat_eq};
ghost use Rattle.std.specs.Result.{ForOk};
ghost use Rattle.corrections.specs.CleanList.{history_of};
ghost use Rattle.cards.specs.Board.{board as board_text};
ghost use Rattle.cards.specs.Sheet.{Sheet};
ghost use Rattle.streams.specs.Watched.{Prints, TellsFailure, has_failed, stream_of};
ghost use Rattle.board.specs.Board.{book_of, game_of, state_of};
ghost use Rattle.board.specs.declared.trouble.Why.{Why};
ghost use Rattle.agree_core.specs.Positions.{InRange, position_of};
ghost use Rattle.board.specs.Rounds.{recalled, with_round};
ghost use Rattle.live.specs.Boards as laws;
ghost use Rattle.live.specs.Boards.{BoardGoes, BoardRuns, IsApart, Memory, PartsNothing, at_turn, grown, in_turn, memory_of, unheard};
ghost use Rattle.station_texts.specs.Notices.{is_stopped, notices_unopened, telling_unopened, with_trouble};
ghost use Rattle.live.specs.Hearings.{Hearing, Hears};
ghost use Rattle.live.specs.Paces.{ticking_of};
ghost use Rattle.live.specs.Runs.{Logs, untyped};
ghost use Rattle.live.specs.Sights.{Sight};
ghost use Rattle.live.specs.Ticks.{unticked};
ghost use Rattle.links.specs.Passed.{Came, Sent};
ghost use Rattle.links.specs.declared.link.Receivers.TheVariants.{ToOne};
ghost use Rattle.links.specs.declared.link.TheConstants.{MOST_TAKEN};
ghost use Rattle.agree_core.specs.declared.messages.{Message.Message as AMessage, Vote.Vote as AVote};
ghost use Rattle.station_texts.specs.declared.notices.Notice.{Notice};
ghost use Rattle.wire.specs.Layout.{IsMessage, written};
ghost use Rattle.wire.specs.Reading.{Reads};

use crate::awaited::Awaited;
use crate::board_calls::tick;
use crate::hearing::promises_more;
use crate::later::{Later, desk_later};
use crate::pace::Pace;
use crate::scoreboard::Scoreboard;
use crate::shows::{Shows, tell_heard};
use crate::watch::Watch;
use agree_core::{Heard, Message, Vote};
use board::{Board, BoardRefusal, Round, Witness};
use cards::{MatchSheet, board_lines};
use corrections::BookOf;
use links::{Arrival, Clock, Link, MOST_TAKEN, ROOM};
use notation::Entry;
use station_texts::notices::{Notices, Telling};
use streams::{Sink, Watched, WriteFailed};
use wire::{What, WireFault, bytes_of};

/// The state that a board's process keeps between its calls.
#[derive(Clone, Copy, Debug)]
struct Between {
    pace: Pace,
    telling: Telling,
    later: Later,
    awaited: Awaited,
}

/// Looks at the clock, and sends what the board says unasked if that is due. Returns how long to wait for the next datagram.
fn say<B: BookOf, L: Link, C: Clock>(
    board: &Board<B>,
    link: &mut L,
    clock: &mut C,
    pace: &mut Pace,
) -> u64
    ensures goes { (sheet : Sheet) (shown : Option (List ℕ)) (seen : List Sight) (turns had taken : ℕ) (memory : Memory) (notices : List Notice) →
        BoardGoes B.content B.innings_a_side sheet board.now board.now
        (in_turn B.content board.now turns had taken memory (ticking_of pace.old) notices seen)
        (in_turn B.content board.now turns had taken memory (ticking_of pace.new) notices seen)
        (untyped (L.log link.old) (C.readings clock.old) shown) (untyped (L.log link.new) (C.readings clock.new) shown) }
    ensures looked { IsSome (ticking_of pace.new).looked }
    ensures hears { (told : List Hearing) →
        Hears (game_of board.now) (L.log link.old) (L.log link.new) (C.readings clock.old) (C.readings clock.new) told told }
{
    let now = clock.millis();
    let is_due = pace.take_due(now);
    let wait = pace.take_wait(now);
    if is_due {
        tick(board, link);
        return wait;
    }
    wait
}

/// Returns the vote of the sending desk that goes back to it, if this message calls for one.
#[tactic(auto, using(std::proofs::lemmas::Grind::common_steps, wire::proofs::MessageLemmas::in_range))]
fn recalled(witness: &Witness, read: &Result<Message, WireFault>) -> Option<Vote>
    requires { ForOk read.now IsMessage }
    ensures some { (v : AVote) → result ≡ Some v → (m : AMessage) × (read.now ≡ Ok m) × (recalled witness.now m ≡ Some v) }
    ensures range { IfSome result (λ v. InRange (position_of v)) }
    ensures none { result ≡ None → (m : AMessage) → read.now ≡ Ok m → recalled witness.now m ≡ None }
{
    match read {
        Ok(message) => witness.recalled(message),
        Err(_) => None,
    }
}

/// Returns the place of a vote that contradicts the one heard from its desk; `None` for any other message, or once the board
/// has stopped.
fn parting(telling: Telling, read: &Result<Message, WireFault>) -> Option<u32>
    ensures parted { (place : ℕ) → result ≡ Some place →
        (is_stopped telling ≡ false) × (v : AVote) × (read.now ≡ Ok (Message.Vote v)) × (v.place ≡ place) }
    ensures none { result ≡ None → (m : AMessage) → read.now ≡ Ok m → PartsNothing (is_stopped telling) m }
{
    match read {
        Ok(Message::Vote(vote)) if !telling.is_stopped() => Some(vote.place),
        _ => None,
    }
}

/// Sends a desk's own vote back to the sender of the datagram.
fn hand_back<L: Link>(link: &mut L, game: u64, vote: Vote)
    requires { InRange (position_of vote) }
    ensures { L.log link.new ≡ L.log link.old ++ Sent ToOne (written game (Message.Vote vote)) ∷ [] }
{
    let bytes = bytes_of(game, &Message::Vote(vote));
    link.reply(&bytes);
}

/// Returns the entry of the received vote, if the message is a vote.
fn entry_in(read: &Result<Message, WireFault>) -> Option<Entry>
    ensures { (v : AVote) → read.now ≡ Ok (Message.Vote v) → result ≡ Some v.entry }
{
    match read {
        Ok(Message::Vote(vote)) => Some(vote.entry),
        Ok(Message::Ask(_)) | Err(_) => None,
    }
}

/// Whether the answer shows that both votes of the board's position are now heard.
fn settles(answer: Result<What, BoardRefusal>) -> bool
    ensures { result ≡ laws.settles answer }
{
    matches!(answer, Ok(What::Heard(Heard::Agreed | Heard::Differ)))
}

/// Remembers a round, if the board's answer shows that both its votes are now heard.
fn remember(witness: &mut Witness, round: Option<Round>, answer: Result<What, BoardRefusal>)
    ensures { witness.new ≡ (if laws.settles answer then with_round witness.old round else witness.old) }
{
    if settles(answer) {
        witness.note(round);
    }
}

/// Gives a message, as read, to a board at its position, and tells what the board can't take. Remembers a round once both its
/// votes are heard, and which desks are ahead.
fn give<B: BookOf, N: Notices>(
    board: &mut Board<B>,
    read: &Result<Message, WireFault>,
    watch: &mut Watch<N>,
    between: &mut Between,
    now: u64,
)
    requires message { ForOk read.now IsMessage }
    requires goes_on { is_stopped between.old.telling ≡ false }
    requires kept { (m : AMessage) → read.now ≡ Ok m → recalled watch.old.witness m ≡ None }
    ensures goes { (bytes : List ℕ) (sheet : Sheet) (logs : Logs) (seen : List Sight) (turns had taken : ℕ) →
        Reads (game_of board.old) bytes read.now → taken < MOST_TAKEN →
        BoardGoes B.content B.innings_a_side sheet board.old board.new
        (in_turn B.content board.old turns had taken (memory_of between.old.telling watch.old.witness between.old.later) (ticking_of between.old.pace) (N.told watch.old.notices) seen)
        (in_turn B.content board.new turns had (taken + 1) (memory_of between.new.telling watch.new.witness between.new.later) (ticking_of between.new.pace) (N.told watch.new.notices) seen)
        logs (record logs { passed = logs.passed ++ Came bytes ∷ [] }) }
    ensures ticking { ticking_of between.new.pace ≡ ticking_of between.old.pace }
    ensures game { game_of board.new ≡ game_of board.old }
{
    let at = board.position();
    let round = board.round_with(entry_in(read));
    let desk = desk_later(read, at.place);
    let answer = board.take(*read);
    let Watch { notices, witness } = watch;
    remember(witness, round, answer);
    let telling = between.telling;
    telling.tell(answer, notices);
    between.telling = telling.after(answer);
    between.later = between.later.after(desk, answer);
    between.awaited.note(answer, now);
    let may_come = answer.is_ok_and(promises_more);
    between.pace.note(board.position() != at, may_come, now);
}

/// Tells that a desk's file lacks lines, as its vote for this place shows. The board isn't given that vote.
fn part<N: Notices>(watch: &mut Watch<N>, between: &mut Between, place: u32)
    ensures telling { between.new.telling ≡ with_trouble between.old.telling place Why.Anew }
    ensures told { N.told watch.new.notices ≡ N.told watch.old.notices ++ Notice.Parted place ∷ [] }
    ensures witness { watch.new.witness ≡ watch.old.witness }
    ensures later { between.new.later ≡ between.old.later }
    ensures pace { between.new.pace ≡ between.old.pace }
{
    let Watch { notices, .. } = watch;
    between.telling = between.telling.part(place, notices);
}

/// Gives a board a message, as read, unless the board has stopped.
fn hear_on<B: BookOf, N: Notices>(
    board: &mut Board<B>,
    read: &Result<Message, WireFault>,
    watch: &mut Watch<N>,
    between: &mut Between,
    now: u64,
)
    requires message { ForOk read.now IsMessage }
    requires kept { (m : AMessage) → read.now ≡ Ok m → recalled watch.old.witness m ≡ None }
    ensures goes { (bytes : List ℕ) (sheet : Sheet) (logs : Logs) (seen : List Sight) (turns had taken : ℕ) →
        Reads (game_of board.old) bytes read.now → taken < MOST_TAKEN →
        BoardGoes B.content B.innings_a_side sheet board.old board.new
        (in_turn B.content board.old turns had taken (memory_of between.old.telling watch.old.witness between.old.later) (ticking_of between.old.pace) (N.told watch.old.notices) seen)
        (in_turn B.content board.new turns had (taken + 1) (memory_of between.new.telling watch.new.witness between.new.later) (ticking_of between.new.pace) (N.told watch.new.notices) seen)
        logs (record logs { passed = logs.passed ++ Came bytes ∷ [] }) }
    ensures ticking { ticking_of between.new.pace ≡ ticking_of between.old.pace }
    ensures game { game_of board.new ≡ game_of board.old }
{
    if between.telling.is_stopped() {
        return;
    }
    give(board, read, watch, between, now);
}

/// Hands a desk its own vote back, since the message shows that its file lacks a line, or may lack one. If a vote shows it,
/// that is told. The board isn't given the message.
fn recall<B: BookOf, L: Link, N: Notices>(
    board: &Board<B>,
    read: &Result<Message, WireFault>,
    own: Vote,
    link: &mut L,
    watch: &mut Watch<N>,
    between: &mut Between,
)
    requires own { (m : AMessage) × (read.now ≡ Ok m) × (recalled watch.old.witness m ≡ Some own) }
    requires range { InRange (position_of own) }
    ensures goes { (bytes : List ℕ) (sheet : Sheet) (logs : Logs) (seen : List Sight) (turns had taken : ℕ) →
        Reads (game_of board.now) bytes read.now → taken < MOST_TAKEN → L.log link.old ≡ logs.passed ++ Came bytes ∷ [] →
        BoardGoes B.content B.innings_a_side sheet board.now board.now
        (in_turn B.content board.now turns had taken (memory_of between.old.telling watch.old.witness between.old.later) (ticking_of between.old.pace) (N.told watch.old.notices) seen)
        (in_turn B.content board.now turns had (taken + 1) (memory_of between.new.telling watch.new.witness between.new.later) (ticking_of between.new.pace) (N.told watch.new.notices) seen)
        logs (record logs { passed = L.log link.new }) }
    ensures ticking { ticking_of between.new.pace ≡ ticking_of between.old.pace }
    ensures hears { (times : List ℕ) (told : List Hearing) → Hears (game_of board.now) (L.log link.old) (L.log link.new) times times told told }
{
    hand_back(link, board.game(), own);
    if let Some(place) = parting(between.telling, read) {
        part(watch, between, place);
    }
}

/// Takes a message, as read. The board is given it, unless the message shows that a desk's file lacks a line, or may lack one.
fn hear<B: BookOf, L: Link, N: Notices>(
    board: &mut Board<B>,
    read: &Result<Message, WireFault>,
    link: &mut L,
    watch: &mut Watch<N>,
    between: &mut Between,
    now: u64,
)
    requires { ForOk read.now IsMessage }
    ensures goes { (bytes : List ℕ) (sheet : Sheet) (logs : Logs) (seen : List Sight) (turns had taken : ℕ) →
        Reads (game_of board.old) bytes read.now → taken < MOST_TAKEN → L.log link.old ≡ logs.passed ++ Came bytes ∷ [] →
        BoardGoes B.content B.innings_a_side sheet board.old board.new
        (in_turn B.content board.old turns had taken (memory_of between.old.telling watch.old.witness between.old.later) (ticking_of between.old.pace) (N.told watch.old.notices) seen)
        (in_turn B.content board.new turns had (taken + 1) (memory_of between.new.telling watch.new.witness between.new.later) (ticking_of between.new.pace) (N.told watch.new.notices) seen)
        logs (record logs { passed = L.log link.new }) }
    ensures ticking { ticking_of between.new.pace ≡ ticking_of between.old.pace }
    ensures game { game_of board.new ≡ game_of board.old }
    ensures hears { (times : List ℕ) (told : List Hearing) → Hears (game_of board.old) (L.log link.old) (L.log link.new) times times told told }
{
    match recalled(&watch.witness, read) {
        Some(own) => recall(board, read, own, link, watch, between),
        None => hear_on(board, read, watch, between, now),
    }
}

/// Tells that a datagram doesn't open, unless that was already told. What is said unasked, and when, stays unchanged.
fn pass_over<N: Notices>(watch: &mut Watch<N>, between: &mut Between)
    ensures telling { between.new.telling ≡ telling_unopened between.old.telling }
    ensures told { N.told watch.new.notices ≡ notices_unopened between.old.telling (N.told watch.old.notices) }
    ensures witness { watch.new.witness ≡ watch.old.witness }
    ensures later { between.new.later ≡ between.old.later }
    ensures pace { between.new.pace ≡ between.old.pace }
{
    let Watch { notices, .. } = watch;
    between.telling = between.telling.unopened(notices);
}

/// Says what is due, and takes the next datagram. The first one of a turn is waited for until something is due, but
/// `longest_wait` milliseconds at most. A message is told to what shows the board's book. Returns whether a datagram was taken.
fn take_next<B: BookOf, L: Link, C: Clock, N: Notices, S: Shows<B>>(
    board: &mut Board<B>,
    link: &mut L,
    clock: &mut C,
    watch: &mut Watch<N>,
    state: &mut S,
    between: &mut Between,
    longest_wait: u64,
) -> bool
    ensures taken { result ≡ true →
        (sheet : Sheet) (shown : Option (List ℕ)) (seen : List Sight) (turns had taken : ℕ) → taken < MOST_TAKEN →
        BoardGoes B.content B.innings_a_side sheet board.old board.new
        (in_turn B.content board.old turns had taken (memory_of between.old.telling watch.old.witness between.old.later) (ticking_of between.old.pace) (N.told watch.old.notices) seen)
        (in_turn B.content board.new turns had (taken + 1) (memory_of between.new.telling watch.new.witness between.new.later) (ticking_of between.new.pace) (N.told watch.new.notices) seen)
        (untyped (L.log link.old) (C.readings clock.old) shown) (untyped (L.log link.new) (C.readings clock.new) shown) }
    ensures none { result ≡ false →
        (sheet : Sheet) (shown : Option (List ℕ)) (seen : List Sight) (turns had taken : ℕ) →
        BoardGoes B.content B.innings_a_side sheet board.old board.new
        (in_turn B.content board.old turns had taken (memory_of between.old.telling watch.old.witness between.old.later) (ticking_of between.old.pace) (N.told watch.old.notices) seen)
        (in_turn B.content board.new turns had taken (memory_of between.new.telling watch.new.witness between.new.later) (ticking_of between.new.pace) (N.told watch.new.notices) seen)
        (untyped (L.log link.old) (C.readings clock.old) shown) (untyped (L.log link.new) (C.readings clock.new) shown) }
    ensures looked { IsSome (ticking_of between.new.pace).looked }
    ensures game { game_of board.new ≡ game_of board.old }
    ensures hears { Hears (game_of board.old) (L.log link.old) (L.log link.new) (C.readings clock.old) (C.readings clock.new)
        (S.heard state.old) (S.heard state.new) }
    ensures seen { S.seen state.new ≡ S.seen state.old }
    ensures failed { S.failed state.new ≡ S.failed state.old }
{
    let wait = say(board, link, clock, &mut between.pace);
    let mut buffer = [0; ROOM];
    let longest = wait.min(longest_wait);
    match link.take_message(board.game(), &mut buffer, longest) {
        Arrival::Datagram(_, read) => {
            let now = clock.millis();
            tell_heard(state, &read, now);
            hear(board, &read, link, watch, between, now);
            true
        }
        Arrival::Unopened => {
            pass_over(watch, between);
            true
        }
        Arrival::Nothing | Arrival::Lost => false,
    }
}

/// Takes the datagrams of a turn. The first one is waited for, `longest_wait` milliseconds at most.
fn take_all<B: BookOf, L: Link, C: Clock, N: Notices, S: Shows<B>>(
    board: &mut Board<B>,
    link: &mut L,
    clock: &mut C,
    watch: &mut Watch<N>,
    state: &mut S,
    between: &mut Between,
    longest_wait: u64,
)
    ensures goes { (sheet : Sheet) (shown : Option (List ℕ)) (seen : List Sight) (turns had : ℕ) → (taken : ℕ) ×
        BoardGoes B.content B.innings_a_side sheet board.old board.new
        (in_turn B.content board.old turns had 0 (memory_of between.old.telling watch.old.witness between.old.later) (ticking_of between.old.pace) (N.told watch.old.notices) seen)
        (in_turn B.content board.new turns had taken (memory_of between.new.telling watch.new.witness between.new.later) (ticking_of between.new.pace) (N.told watch.new.notices) seen)
        (untyped (L.log link.old) (C.readings clock.old) shown) (untyped (L.log link.new) (C.readings clock.new) shown) }
    ensures looked { IsSome (ticking_of between.new.pace).looked }
    ensures hears { Hears (game_of board.old) (L.log link.old) (L.log link.new) (C.readings clock.old) (C.readings clock.new)
        (S.heard state.old) (S.heard state.new) }
    ensures seen { S.seen state.new ≡ S.seen state.old }
    ensures failed { S.failed state.new ≡ S.failed state.old }
{
    between.pace.set_waits(true);
    for taken in 0..MOST_TAKEN {
        if !take_next(board, link, clock, watch, state, between, longest_wait) {
            break;
        }
    }
}

/// Whether a board has heard that the desks told it different lines, and hasn't told of any trouble yet.
fn is_apart<B: BookOf>(board: &Board<B>, between: &Between) -> bool
    ensures apart { result ≡ true → IsApart (state_of B.content board.now).reader.position between.now.later }
    ensures untold { result ≡ true → is_some between.now.telling.trouble ≡ false }
{
    let is_later_round = board.position().round > 0;
    let later = between.later;
    is_later_round && later.a && later.b && between.telling.trouble.is_none()
}

/// Tells that the desks told this board different lines, at its place.
fn tell_apart<N: Notices>(watch: &mut Watch<N>, between: &mut Between, place: u32)
    ensures telling { between.new.telling ≡ with_trouble between.old.telling place Why.Apart }
    ensures told { N.told watch.new.notices ≡ N.told watch.old.notices ++ Notice.Apart place ∷ [] }
    ensures witness { watch.new.witness ≡ watch.old.witness }
    ensures later { between.new.later ≡ between.old.later }
    ensures pace { between.new.pace ≡ between.old.pace }
{
    let Watch { notices, .. } = watch;
    between.telling = between.telling.split(place, notices);
}

/// Tells, at the end of a turn at this time, that the desks told this board different lines, if that is due.
fn look_apart<B: BookOf, N: Notices>(
    board: &Board<B>,
    watch: &mut Watch<N>,
    between: &mut Between,
    now: u64,
)
    ensures goes { (sheet : Sheet) (logs : Logs) (seen : List Sight) (turns had taken : ℕ) →
        BoardGoes B.content B.innings_a_side sheet board.now board.now
        (in_turn B.content board.now turns had taken (memory_of between.old.telling watch.old.witness between.old.later) (ticking_of between.old.pace) (N.told watch.old.notices) seen)
        (in_turn B.content board.now turns had taken (memory_of between.new.telling watch.new.witness between.new.later) (ticking_of between.new.pace) (N.told watch.new.notices) seen)
        logs logs }
    ensures pace { between.new.pace ≡ between.old.pace }
{
    between.awaited.pass(now);
    if is_apart(board, between) {
        if between.awaited.is_over(now) {
            let place = board.position().place;
            tell_apart(watch, between, place);
        }
    }
}

/// Prints a board's six lines if its book's length has changed, and flushes the screen.
#[tactic(auto, using(std::proofs::lemmas::Grind::common_steps, std::proofs::lemmas::Bool::Decides::nat_tests, streams::proofs::Appending::appends_kept, streams::proofs::Appending::appends_none))]
fn print_news<B: BookOf, W: Sink>(
    board: &Board<B>,
    sheet: &MatchSheet,
    out: &mut Watched<W>,
    before: u32,
) -> Result<(), WriteFailed>
    ensures text { OnOk result (Prints W.contents out.old out.new
        (grown (nat_eq (length (B.content (book_of board.now))) before)
        (board_text sheet.now (B.innings_a_side (book_of board.now)) (history_of (B.content (book_of board.now)))))) }
    ensures failed { TellsFailure result out.old out.new }
{
    if board.book().len() != before {
        board_lines(sheet, board.shown(), out)?;
    }
    out.flush()
}

/// Takes a board's turn: looks at the clock and says what is due, takes the datagrams, tells if the desks told it different
/// lines, prints the six lines if its book has grown, and hands over to be shown its book and what keeps it from going on.
fn turn<B: BookOf, L: Link, C: Clock, N: Notices, W: Sink, S: Shows<B>>(
    board: &mut Board<B>,
    sheet: &MatchSheet,
    link: &mut L,
    clock: &mut C,
    watch: &mut Watch<N>,
    scoreboard: &mut Scoreboard<W, S>,
    between: &mut Between,
) -> Result<(), WriteFailed>
    ensures runs { (turns : ℕ) → (runs : BoardRuns B.content B.innings_a_side sheet.now board.old board.new
        (untyped (L.log link.old) (C.readings clock.old) (W.contents (stream_of scoreboard.old.lines)))
        (untyped (L.log link.new) (C.readings clock.new) (W.contents (stream_of scoreboard.new.lines))) turns (turns + 1)
        (memory_of between.old.telling watch.old.witness between.old.later) (ticking_of between.old.pace) (N.told watch.old.notices) (N.told watch.new.notices)
        (S.seen scoreboard.old.state) (S.seen scoreboard.new.state) result)
        × OnOk result (runs.last ≡ at_turn B.content board.new (turns + 1)
        (memory_of between.new.telling watch.new.witness between.new.later) (ticking_of between.new.pace) (N.told watch.new.notices) (S.seen scoreboard.new.state)) }
    ensures failed { OnErr result (has_failed scoreboard.new.lines ≡ true ⊎ S.failed scoreboard.new.state ≡ true) }
    ensures hears { Hears (game_of board.old) (L.log link.old) (L.log link.new) (C.readings clock.old) (C.readings clock.new)
        (S.heard scoreboard.old.state) (S.heard scoreboard.new.state) }
{
    let Scoreboard { lines, state } = scoreboard;
    let before = board.book().len();
    let longest_wait = state.longest_wait();
    take_all(board, link, clock, watch, state, between, longest_wait);
    let now = clock.millis();
    look_apart(board, watch, between, now);
    between.pace.end_turn();
    print_news(board, sheet, lines, before)?;
    state.show(sheet, board.book(), between.telling.trouble, now)
}

/// Runs a board's process for this many turns: it asks, takes what its link gives, tells what it can't take, prints its six
/// lines at the end of each turn in which its book has grown, and at the end of every turn hands over to be shown its book and
/// what keeps it from going on.
/// This is a run by the definitions of a board: its datagrams are exactly those that passed at the link, its times those that
/// its clock showed, its texts those that were written, its notices those that were told, and its sights those handed over to
/// be shown. What shows the book is told each message that is heard, as it comes, and when.
pub fn run_board<B: BookOf, L: Link, C: Clock, N: Notices, W: Sink, S: Shows<B>>(
    board: &mut Board<B>,
    sheet: &MatchSheet,
    link: &mut L,
    clock: &mut C,
    watch: &mut Watch<N>,
    scoreboard: &mut Scoreboard<W, S>,
    turns: u64,
) -> Result<(), WriteFailed>
    requires fresh { watch.old.witness ≡ [] }
    ensures runs { BoardRuns B.content B.innings_a_side sheet.now board.old board.new
        (untyped (L.log link.old) (C.readings clock.old) (W.contents (stream_of scoreboard.old.lines)))
        (untyped (L.log link.new) (C.readings clock.new) (W.contents (stream_of scoreboard.new.lines))) 0 turns
        unheard unticked (N.told watch.old.notices) (N.told watch.new.notices) (S.seen scoreboard.old.state) (S.seen scoreboard.new.state) result }
    ensures failed { OnErr result (has_failed scoreboard.new.lines ≡ true ⊎ S.failed scoreboard.new.state ≡ true) }
    ensures hears { Hears (game_of board.old) (L.log link.old) (L.log link.new) (C.readings clock.old) (C.readings clock.new)
        (S.heard scoreboard.old.state) (S.heard scoreboard.new.state) }
{
    let mut between = Between {
        pace: Pace::new(),
        telling: Telling::NOTHING,
        later: Later::NEITHER,
        awaited: Awaited::new(),
    };
    for number in 0..turns {
        turn(board, sheet, link, clock, watch, scoreboard, &mut between)?;
    }
    Ok(())
}
