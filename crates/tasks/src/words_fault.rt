//! Why the words on the command line are refused.

ghost use Rattle.std.specs.Prelude.{◌≡◌, Some, OnOk};
ghost use Rattle.streams.specs.Watched.{Prints, TellsFailure};
ghost use Rattle.tasks.specs.Words.{words_line};

use std::alloc::AllocError;
use std::{fmt, io};
use streams::{Sink, Watched, WriteFailed};
use thiserror::Error;

/// Why the words on the command line are refused.
#[derive(Clone, Copy, Debug, Error)]
pub enum WordsFault<'a> {
    /// The words have none of the program's forms.
    NotUnderstood,
    /// One of the words isn't UTF-8.
    NotText,
    /// This word is no option of the command, and may not stand there otherwise.
    Unknown(&'a str),
    /// This option is given too often.
    TooOften(&'a str),
    /// This option has no value.
    NoValue(&'a str),
    /// The value of this option doesn't have the wanted form.
    WrongValue {
        option: &'a str,
        value: &'a str,
        wanted: &'a str,
    },
    /// This option doesn't go with the other ones.
    Misplaced {
        option: &'a str,
        wanted: &'a str,
    },
    /// The station of this command doesn't have the wanted form.
    WrongStation {
        command: &'a str,
        word: &'a str,
        wanted: &'a str,
    },
    /// This command lacks its station.
    Lacks {
        command: &'a str,
        what: &'a str,
    },
    /// This command lacks this option.
    LacksOption {
        command: &'a str,
        option: &'a str,
    },
    /// Memory was refused.
    NoMemory,
}

impl fmt::Display for WordsFault<'_> {
    ghost use Rattle.tasks.specs.Words.{words_text};

    ghost output = { λ fault. Some (words_text fault) };

    /// Writes the words that standard error is told.
    fn fmt<W: fmt::Write>(&self, f: &mut fmt::Formatter<W>) -> fmt::Result {
        match self {
            WordsFault::NotUnderstood => f.write_str("words not understood"),
            WordsFault::NotText => f.write_str("words not understood: one isn't UTF-8"),
            WordsFault::Unknown(word) => write!(f, "words not understood: {word}"),
            WordsFault::TooOften(option) => {
                write!(f, "words not understood: --{option} is given too often")
            }
            WordsFault::NoValue(option) => {
                write!(f, "words not understood: --{option} has no value")
            }
            WordsFault::WrongValue {
                option,
                value,
                wanted,
            } => write!(f, "words not understood: --{option} {value}: {wanted}"),
            WordsFault::Misplaced { option, wanted } => {
                write!(f, "words not understood: --{option}: {wanted}")
            }
            WordsFault::WrongStation {
                command,
                word,
                wanted,
            } => write!(f, "words not understood: {command} {word}: {wanted}"),
            WordsFault::Lacks { command, what } => {
                write!(f, "words not understood: {command} lacks {what}")
            }
            WordsFault::LacksOption { command, option } => {
                write!(f, "words not understood: {command} lacks --{option}")
            }
            WordsFault::NoMemory => f.write_str("no memory"),
        }
    }
}

impl From<AllocError> for WordsFault<'_> {
    ghost use Rattle.tasks.specs.declared.words_fault.WordsFault.TheVariants.{NoMemory};

    ghost from_gives = { λ _ fault. fault ≡ NoMemory };

    fn from(_why: AllocError) -> Self {
        WordsFault::NoMemory
    }
}

impl From<io::Error> for WordsFault<'_> {
    ghost use Rattle.std.specs.IoError.{error_kind};
    ghost use Rattle.tasks.specs.Words.{of_host};

    ghost from_gives = { λ why fault. fault ≡ of_host (error_kind why) };

    /// Returns why the host doesn't give the words.
    fn from(why: io::Error) -> Self {
        match why.kind() {
            io::ErrorKind::OutOfMemory => WordsFault::NoMemory,
            io::ErrorKind::InvalidData => WordsFault::NotText,
            _ => WordsFault::NotUnderstood,
        }
    }
}

impl From<clap::Error> for WordsFault<'_> {
    ghost use Rattle.clap.specs.Values.{kind_of};
    ghost use Rattle.tasks.specs.Words.{of_parse};

    ghost from_gives = { λ why fault. fault ≡ of_parse (kind_of why) };

    /// Returns why `clap` refuses the words: every kind but out of memory means that they have none of the forms.
    fn from(why: clap::Error) -> Self {
        match why.kind() {
            clap::error::ErrorKind::OutOfMemory => WordsFault::NoMemory,
            _ => WordsFault::NotUnderstood,
        }
    }
}

/// Prints the line that tells standard error why the words are refused.
pub fn print_words_fault<W: Sink>(
    out: &mut Watched<W>,
    fault: WordsFault<'_>,
) -> Result<(), WriteFailed>
    ensures text { OnOk result (Prints W.contents out.old out.new (words_line fault.entry)) }
    ensures failed { TellsFailure result out.old out.new }
{
    writeln!(out, "{fault}")
}
