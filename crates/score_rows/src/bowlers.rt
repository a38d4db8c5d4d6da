//! The players who may bowl the next delivery.

ghost use Rattle.std.specs.Prelude.{◌≡◌, ◌<◌, OnOk, true};
ghost use Rattle.std.specs.List.{list_all};
ghost use Rattle.ball_laws.specs.Over.{numbers as all_numbers};
ghost use Rattle.match_laws.specs.History.{begun};
ghost use Rattle.corrections.specs.CleanList.{history_of};
ghost use Rattle.streams.specs.Watched.{Prints, TellsFailure};
ghost use Rattle.score_rows.specs.Limited as limited;
ghost use Rattle.notation.specs.Written.{is_player};

use crate::text::Text;
use cards::MatchSheet;
use corrections::BookOf;
use limits::{may_bowl, overs_yet};
use match_laws::opponent;
use notation::Player;
use streams::{Sink, Watched, WriteFailed};

type Yet = Option<(&'static str, u32, &'static str)>;

/// Returns how many overs a player has left, if a bowler's overs are limited.
fn yet<B: BookOf>(book: &B, most: Option<u16>, player: Player) -> Yet
    ensures { ⟦<Yet as Text>⟧.bytes result ≡ limited.yet_text most player (history_of (B.content book.now)) }
{
    match most {
        None => None,
        Some(most) => Some((", ", overs_yet(book, most, player), " left")),
    }
}

type BowlerRow<'a> = (u32, &'static str, &'a str, (Yet, &'static str));

/// Returns the row of a player of the fielding side.
fn bowler_row<'a, B: BookOf>(
    sheet: &'a MatchSheet,
    book: &B,
    innings: usize,
    player: Player,
) -> BowlerRow<'a>
    requires { innings < begun (history_of (B.content book.now)) }
    ensures { ⟦<BowlerRow<'static> as Text>⟧.bytes result
        ≡ limited.bowler_row sheet.now (history_of (B.content book.now)) innings player }
{
    let side = opponent(book.score().side(innings));
    let name = sheet.player(side, player);
    let yet = yet(book, sheet.limits().overs_a_bowler(), player);
    (u32::from(player.number()), " ", name, (yet, "\n"))
}

/// Prints the player's row if he may bowl the next delivery.
fn print_if_may<W: Sink, B: BookOf>(
    out: &mut Watched<W>,
    sheet: &MatchSheet,
    book: &B,
    innings: usize,
    player: Player,
) -> Result<(), WriteFailed>
    requires { innings < begun (history_of (B.content book.now)) }
    ensures text { OnOk result (Prints W.contents out.old out.new
        (limited.row_if_may sheet.now (history_of (B.content book.now)) innings player)) }
    ensures failed { TellsFailure result out.old out.new }
{
    if may_bowl(book, sheet.limits().overs_a_bowler(), player) {
        bowler_row(sheet, book, innings, player).print(out)
    } else {
        Ok(())
    }
}

/// Prints the rows of those among these numbers who may bowl.
fn print_among<W: Sink, B: BookOf>(
    out: &mut Watched<W>,
    sheet: &MatchSheet,
    book: &B,
    innings: usize,
    numbers: &[u8],
) -> Result<(), WriteFailed>
    requires begun { innings < begun (history_of (B.content book.now)) }
    requires numbers { list_all is_player numbers.now ≡ true }
    ensures text { OnOk result (Prints W.contents out.old out.new
        (limited.bowlers_among sheet.now (history_of (B.content book.now)) innings numbers.now)) }
    ensures failed { TellsFailure result out.old out.new }
{
    let Some((number, more)) = numbers.split_first() else {
        return Ok(());
    };
    let Some(player) = Player::new(*number) else {
        return Ok(());
    };
    print_if_may(out, sheet, book, innings, player)?;
    print_among(out, sheet, book, innings, more)
}

/// Prints the rows of all who may bowl.
fn print_all<W: Sink, B: BookOf>(
    out: &mut Watched<W>,
    sheet: &MatchSheet,
    book: &B,
    innings: usize,
) -> Result<(), WriteFailed>
    requires { innings < begun (history_of (B.content book.now)) }
    ensures text { OnOk result (Prints W.contents out.old out.new
        (limited.bowlers_among sheet.now (history_of (B.content book.now)) innings all_numbers)) }
    ensures failed { TellsFailure result out.old out.new }
{
    print_among(
        out,
        sheet,
        book,
        innings,
        &[1, 2, 3, 4, 5, 6, 7, 8, 9, 10, 11],
    )
}

/// Prints a row for each player who may bowl the next delivery, with his overs left if these are limited.
pub fn print_bowlers<W: Sink, B: BookOf>(
    out: &mut Watched<W>,
    sheet: &MatchSheet,
    book: &B,
) -> Result<(), WriteFailed>
    ensures text { OnOk result (Prints W.contents out.old out.new
        (limited.bowlers sheet.now (history_of (B.content book.now)))) }
    ensures failed { TellsFailure result out.old out.new }
{
    let score = book.score();
    let begun = score.begun();
    if begun == 0 || !score.is_open() {
        return writeln!(out, "No innings is open");
    }
    print_all(out, sheet, book, begun - 1)
}
