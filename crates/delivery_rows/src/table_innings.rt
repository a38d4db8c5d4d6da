//! An innings whose rows are written.

ghost use Rattle.std.specs.Prelude.{◌≡◌};
ghost use Rattle.archive_deliveries.specs.Innings.{of};
ghost use Rattle.delivery_rows.specs.Deliveries.{head_text};

use archive_deliveries::NamedInnings;

/// An innings whose rows are written, the day of the match, and the text that begins each row.
#[derive(Clone, Copy)]
pub struct TableInnings<'m> {
    pub named: NamedInnings<'m>,
    pub day: &'m str,
    pub head: &'m [u8],
    ghost begins: { head.now ≡ of named (λ s side f i. head_text s day.now side i) },
}
