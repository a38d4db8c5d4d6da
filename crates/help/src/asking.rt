//! What a command line asks to be told.

ghost use Rattle.std.specs.Prelude.{◌≡◌, bytes_eq, codes, string_bytes};
ghost use Rattle.std.specs.List.{list_any};
ghost use Rattle.help.specs.Words as forms;

use crate::subject::{Subject, subject_of};

/// Whether `--help` is among the words.
fn has_help(words: &[String]) -> bool
    ensures { result ≡ forms.has_help words.now }
{
    words.iter().any(|word| word.as_str() == "--help")
}

/// Returns the program's own word that a text is: one of those that take `--help` after them.
#[tactic(auto, unfolding(crate::specs::Words::own_word))]
pub fn own_word(text: &str) -> Option<Subject>
    ensures { result ≡ forms.own_word text.now }
{
    match subject_of(text)? {
        Subject::Check | Subject::Replay | Subject::Card | Subject::Match | Subject::Migrate => {
            None
        }
        subject => Some(subject),
    }
}

/// Returns what the words after `help` ask about: no word is `help` itself, one may be any of the program's words.
fn topic(words: &[String]) -> Option<Subject>
    ensures { result ≡ forms.topic words.now }
{
    match words {
        [] => Some(Subject::Help),
        [word] => subject_of(word.as_str()),
        _ => None,
    }
}

/// Returns what a command line asks about, the program's name first: `help` alone or with one of the program's words, or one
/// of its own words with `--help` somewhere after it. Any other command line asks about nothing.
pub fn asked(words: &[String]) -> Option<Subject>
    ensures { result ≡ forms.asked words.now }
{
    let [_, first, more @ ..] = words else {
        return None;
    };
    if has_help(more) {
        return own_word(first.as_str());
    }
    if first.as_str() == "help" {
        return topic(more);
    }
    None
}
