//! A board's process, from its beginning to its end.

ghost use Rattle.std.specs.Prelude.{◌≡◌, ◌⊎◌, ◌∷◌, ◌++◌, [], IsErr, None, OnErr, OnOk, true};
ghost use Rattle.corrections.specs.CleanList.{history_of};
ghost use Rattle.cards.specs.Board.{board as board_text};
ghost use Rattle.streams.specs.Watched.{Prints, has_failed, stream_of};
ghost use Rattle.board.specs.Board.{book_of, game_of};
ghost use Rattle.live.specs.Boards.{BoardLives, sight_at};
ghost use Rattle.live.specs.Hearings.{Hears};
ghost use Rattle.live.specs.Runs.{untyped};

use crate::board_loop::run_board;
use crate::scoreboard::Scoreboard;
use crate::shows::Shows;
use crate::watch::Watch;
use board::Board;
use cards::{MatchSheet, board_lines};
use corrections::BookOf;
use links::{Clock, Link};
use station_texts::notices::Notices;
use streams::{Sink, WriteFailed};

/// Prints a board's six lines and hands its book over to be shown, as the process begins at this time.
fn begin<B: BookOf, W: Sink, S: Shows<B>>(
    board: &Board<B>,
    sheet: &MatchSheet,
    now: u64,
    scoreboard: &mut Scoreboard<W, S>,
) -> Result<(), WriteFailed>
    ensures text { OnOk result (Prints W.contents scoreboard.old.lines scoreboard.new.lines
        (board_text sheet.now (B.innings_a_side (book_of board.now)) (history_of (B.content (book_of board.now))))) }
    ensures seen { (S.seen scoreboard.new.state ≡ S.seen scoreboard.old.state ++ sight_at B.content B.innings_a_side sheet.now board.now None ∷ [])
        ⊎ ((S.seen scoreboard.new.state ≡ S.seen scoreboard.old.state) × IsErr result) }
    ensures failed { OnErr result (has_failed scoreboard.new.lines ≡ true ⊎ S.failed scoreboard.new.state ≡ true) }
    ensures heard { S.heard scoreboard.new.state ≡ S.heard scoreboard.old.state }
{
    let Scoreboard { lines, state } = scoreboard;
    board_lines(sheet, board.shown(), lines)?;
    lines.flush()?;
    state.show(sheet, board.book(), None, now)
}

/// Runs a board's process: prints its six lines, hands its book over to be shown at once, and then takes this many turns, as
/// `run_board` does.
pub fn keep_board<B: BookOf, L: Link, C: Clock, N: Notices, W: Sink, S: Shows<B>>(
    board: &mut Board<B>,
    sheet: &MatchSheet,
    link: &mut L,
    clock: &mut C,
    watch: &mut Watch<N>,
    scoreboard: &mut Scoreboard<W, S>,
    turns: u64,
) -> Result<(), WriteFailed>
    requires fresh { watch.old.witness ≡ [] }
    ensures lives { BoardLives B.content B.innings_a_side sheet.now board.old board.new
        (untyped (L.log link.old) (C.readings clock.old) (W.contents (stream_of scoreboard.old.lines)))
        (untyped (L.log link.new) (C.readings clock.new) (W.contents (stream_of scoreboard.new.lines))) turns
        (N.told watch.old.notices) (N.told watch.new.notices) (S.seen scoreboard.old.state) (S.seen scoreboard.new.state) result }
    ensures failed { OnErr result (has_failed scoreboard.new.lines ≡ true ⊎ S.failed scoreboard.new.state ≡ true) }
    ensures hears { Hears (game_of board.old) (L.log link.old) (L.log link.new) (C.readings clock.old) (C.readings clock.new)
        (S.heard scoreboard.old.state) (S.heard scoreboard.new.state) }
{
    begin(board, sheet, clock.millis(), scoreboard)?;
    run_board(board, sheet, link, clock, watch, scoreboard, turns)
}
