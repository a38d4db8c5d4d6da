//! What happens at a board of the world.

ghost use Rattle.std.specs.Prelude.{◌≡◌, ◌+◌, ◌≤◌, ◌<◌, ℕ, IfErr, IfOk, List, OnOk, length, vec_capacity, vec_len};
ghost use Rattle.wire.specs.declared.datagram.Datagram.{Datagram};
ghost use Rattle.agree_core.specs.Boards.{fresh_board};
ghost use Rattle.schedule_replay.specs.CodeWorlds.{IsBoardOf, board_seen, board_state};
ghost use Rattle.schedule_replay.specs.Refusals.{no_board};
ghost use Rattle.schedule_replay.specs.inner.WorldBoards.{AreFresh, BoardSteps, SameBoard};
ghost use Rattle.headline.specs.declared.event.Event.TheVariants as events;
ghost use Rattle.headline.specs.declared.event.Station.{Station as AStation};

use crate::seen::{Seen, WorldRefusal};
use crate::site::given;
use board::{Board, BoardRefusal};
use corrections::CheckedBook;
use std::alloc::{AllocError, Global};
use wire::{Datagram, What};

/// Whether none of `boards` boards, numbered from 1, has this number.
pub fn no_board(boards: usize, number: u8) -> bool
    ensures { result ≡ no_board boards number }
{
    number == 0 || boards < number as usize
}

/// Makes a board of the match with an empty book.
pub fn empty_board(
    alloc: Global,
    game: u64,
    innings_a_side: u32,
) -> Result<Board<CheckedBook>, AllocError>
    requires { (1 ≤ innings_a_side) × (innings_a_side ≤ 2) }
    ensures fresh { IfOk result (λ board. board_state board ≡ fresh_board) }
    ensures owner { IfOk result (IsBoardOf game innings_a_side) }
{
    let book = CheckedBook::new(alloc, innings_a_side)?;
    Ok(Board::new(game, book))
}

/// Makes `count` boards of the match, each with an empty book.
pub fn empty_boards(
    alloc: Global,
    game: u64,
    innings_a_side: u32,
    count: u8,
) -> Result<Vec<Board<CheckedBook>>, AllocError>
    requires { (1 ≤ innings_a_side) × (innings_a_side ≤ 2) }
    ensures fresh { IfOk result (λ boards. AreFresh game innings_a_side count boards.items) }
{
    let mut boards = Vec::new(alloc);
    for _ in 0..count {
        boards.push(empty_board(alloc, game, innings_a_side)?)?;
    }
    Ok(boards)
}

/// Returns the outcome for a board's answer.
fn seen_of(answer: Result<What, BoardRefusal>) -> Seen
    ensures { result ≡ board_seen answer }
{
    match answer {
        Ok(what) => given(what, None),
        Err(_) => Seen::BadVotes,
    }
}

/// Gives the board a sent message.
pub fn give_board(board: &mut Board<CheckedBook>, sent: &[Datagram], message: usize) -> Seen
    requires sent { message < length sent.now }
    ensures step { (t : AStation) → BoardSteps (events.Give message t)
        board.old sent.now result board.new sent.now }
    ensures same { SameBoard board.old board.new }
{
    let datagram = sent[message];
    let answer = board.receive(&datagram.bytes);
    seen_of(answer)
}

/// Ticks the board, which sends what it has to send.
pub fn tick_board(board: &Board<CheckedBook>, sent: &mut Vec<Datagram>) -> Seen
    requires room { vec_len sent.old + 2 ≤ vec_capacity sent.old }
    ensures step { (t : AStation) → BoardSteps (events.Tick t)
        board.now sent.old.items result board.now sent.new.items }
{
    let out = board.tick();
    let said = out.as_slice();
    sent.extend_from_slice(said).unwrap();
    Seen::Ticked(said.len() as u32)
}

/// Makes the board begin empty, or leaves it as it was if memory runs out.
pub fn wipe_board(
    board: &mut Board<CheckedBook>,
    alloc: Global,
    game: u64,
    innings_a_side: u32,
) -> Result<Seen, WorldRefusal>
    requires { (1 ≤ innings_a_side) × (innings_a_side ≤ 2) }
    ensures step { IfOk result (λ seen. (n : ℕ) (sent : List Datagram) →
        BoardSteps (events.Wipe n) board.old sent seen board.new sent) }
    ensures owner { OnOk result (IsBoardOf game innings_a_side board.new) }
    ensures refused { IfErr result (λ why. (why ≡ WorldRefusal.NoMemory) × (board.new ≡ board.old)) }
{
    *board = empty_board(alloc, game, innings_a_side)?;
    Ok(Seen::Done)
}
