//! The first item of a book that the Laws refuse.

ghost use Rattle.std.specs.Prelude.{◌≡◌, ◌≤◌, Contains, IfSome, Some, None, []};
ghost use Rattle.match_laws.specs.Stands.{ForEachHistory, answer_with};
ghost use Rattle.notation.specs.Written.{IsPlain};
ghost use Rattle.corrections.specs.CleanList.{kept};
ghost use Rattle.corrections.specs.Refusal.{first_refused};
ghost use Rattle.corrections.specs.declared.refusal.Refusal.TheVariants.{Later};
ghost use Rattle.corrections.specs.inner.Scoring.{AreInRange, IsTaken};

use corrections::Placed;
use match_laws::{LawRefusal, Match, is_void, start};
use notation::Plain;

/// Has the match take one more item, or returns why the Laws refuse it. A void item changes nothing.
fn take_item(score: &mut Match, item: &Plain) -> Result<(), LawRefusal>
    requires { IsPlain item.now }
    ensures { ForEachHistory score.old (λ n h. IsTaken (answer_with result score.new) n h item.now) }
{
    if is_void(item) {
        Ok(())
    } else {
        score.take(item)
    }
}

/// Returns the first of these items that the Laws refuse after those before it, and why, with one or two innings a side.
pub fn first_refused(innings_a_side: u32, items: &[Placed]) -> Option<(Placed, LawRefusal)>
    requires innings { (1 ≤ innings_a_side) × (innings_a_side ≤ 2) }
    requires in_range { AreInRange items.now }
    ensures some { IfSome result (λ found. (first_refused innings_a_side [] (kept items.now) ≡ Some (Later (found.0).place found.1))
        × Contains items.now found.0 × IsPlain found.0.item) }
    ensures none { result ≡ None → first_refused innings_a_side [] (kept items.now) ≡ None }
{
    let mut score = start(innings_a_side);
    for index in 0..items.len() {
        let placed = items[index];
        if let Err(why) = take_item(&mut score, &placed.item) {
            return Some((placed, why));
        }
    }
    None
}
