//! What holds of everything that is typed and told. The functions do nothing: they stand for the laws that they ensure.

ghost use Rattle.std.specs.Prelude.{◌≡◌, ◌++◌, ◌∷◌, List, [], ℕ, false, true};
ghost use Rattle.typing.specs.Courses.{Heard, bytes_of, handed_from, is_unbroken, keys_in, next, pieces_from, rows_in, standing_behind, told_in};
ghost use Rattle.typing.specs.Terminals.{Standing, line_drawn};

/// What the desk is handed depends on the keys alone, whatever the desk tells meanwhile.
pub fn what_is_entered_is_handed()
    ensures { (s : Standing) (events : List Heard) → handed_from s events ≡ handed_from s (keys_in events) }
{}

/// All that the desk tells is shown, in order, and each of its rows is unbroken: nothing else is shown between a row's first
/// and last byte. After each whole row and each key outside a row, the line being typed is shown.
pub fn rows_are_shown_whole()
    ensures told { (s : Standing) (events : List Heard) → told_in (pieces_from s events) ≡ rows_in events }
    ensures unbroken { (s : Standing) (events : List Heard) → is_unbroken s.is_within (pieces_from s events) ≡ true }
    ensures below { (s : Standing) (events : List Heard) (last : Heard) →
        (next (standing_behind s events) last).is_within ≡ false → (above : List ℕ)
        × (bytes_of (pieces_from s (events ++ last ∷ [])) ≡ above ++ line_drawn (standing_behind s (events ++ last ∷ []))) }
{}
