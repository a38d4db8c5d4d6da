//! A board's calls on its link.

ghost use Rattle.board.specs.Board.{state_of};
ghost use Rattle.live.specs.Boards.{Asks};

use board::Board;
use corrections::BookOf;
use links::{Link, send_each};

/// Sends to all what a board says unasked.
pub fn tick<B: BookOf, L: Link>(board: &Board<B>, link: &mut L)
    ensures { Asks B.content board.now (L.log link.old) (L.log link.new) }
{
    send_each(link, board.tick().as_slice());
}
