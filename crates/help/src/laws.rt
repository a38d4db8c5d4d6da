//! What the texts are. This function does nothing: it stands for the law that it ensures.

ghost use Rattle.help.specs.declared.subject.Subject.{Subject};
ghost use Rattle.help.specs.Texts.{FitsAScreen, rows};

/// The help text of any word has at most 24 rows of at most 80 columns.
pub fn texts_fit_a_screen()
    ensures { (subject : Subject) → FitsAScreen (rows subject) }
{}
