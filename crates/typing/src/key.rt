//! The keys of a terminal.

/// What a scorer presses at a terminal.
#[derive(Clone, Copy)]
pub enum Key {
    /// A letter, a digit, a blank or another character.
    Sign(u8),
    /// Removes the character before the cursor.
    Erase,
    /// Removes the character at the cursor.
    Delete,
    /// Removes the word before the cursor.
    EraseWord,
    /// Removes the whole line.
    EraseLine,
    /// Goes to the start of the line.
    Front,
    /// Goes to the end of the line.
    End,
    Left,
    Right,
    /// Shows the entered line before the shown one.
    Earlier,
    /// Shows the line after the shown one.
    Later,
    /// Enters the line.
    Enter,
    /// Ctrl-D: on an empty line it enters `quit`.
    Stop,
}
