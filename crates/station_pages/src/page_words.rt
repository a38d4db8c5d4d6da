//! The words of a desk's page, `page` and `page new`, which aren't given to the desk.

ghost use Rattle.std.specs.Prelude.{◌≡◌, ◌↔◌, [], IfSome, IsNone, false};
ghost use Rattle.links.specs.Logs.{inputs_of};
ghost use Rattle.screen.specs.Words as words;
ghost use Rattle.station_pages.specs.PageWords.{for_desk, is_page_word};

use links::{HeldLine, InputLog, Keys, LineBuffer, Stand, Typed};

/// A word of a desk's page.
#[derive(Clone, Copy)]
pub enum PageWord {
    /// `page`: a new square.
    Square,
    /// `page new`: a new square, and all signed viewers are dropped.
    Anew,
}

/// Shows the squares of a desk's page.
pub trait Squares {
    /// Shows a new square, as the word asks for.
    fn show(&mut self, word: PageWord);
}

/// Returns a line without the white space at its end.
fn trimmed(line: &[u8]) -> &[u8]
    ensures { result.now ≡ words.trimmed line.now }
{
    line.trim_ascii_end()
}

/// Returns the page's word if the line is one. Such a line writes nothing in the book.
fn word_in(line: &[u8]) -> Option<PageWord>
    ensures { IsNone result ↔ (is_page_word line.now ≡ false) }
{
    let word = trimmed(line);
    if word == b"page".as_slice() {
        Some(PageWord::Square)
    } else if word == b"page new".as_slice() {
        Some(PageWord::Anew)
    } else {
        None
    }
}

/// A scorer's lines without the page's words, each of which shows a square.
#[derive(Drop)]
pub struct PageWords<K: Keys, S> {
    keys: K,
    squares: S,
    given: InputLog,
    ghost all_others: { inputs_of given ≡ for_desk (K.inputs keys) },
}

impl<K: Keys, S: Squares> PageWords<K, S> {
    /// Begins with a keyboard that has given nothing yet.
    pub fn of(keys: K, squares: S) -> PageWords<K, S>
        requires { K.inputs keys ≡ [] }
        ensures { inputs_of result.given ≡ [] }
    {
        PageWords {
            keys,
            squares,
            given: InputLog::Empty,
        }
    }

    /// Returns the keyboard.
    pub fn keys(&self) -> &K
        ensures keys { result.now ≡ self.now.keys }
        ensures others { inputs_of self.now.given ≡ for_desk (K.inputs result.now) }
    {
        &self.keys
    }

    /// Returns the lines that were given to the desk.
    pub fn given(&self) -> &InputLog
        ensures { result.now ≡ self.now.given }
    {
        &self.given
    }
}

impl<K: Keys, S: Squares> Keys for PageWords<K, S> {
    ghost use Rattle.links.specs.Logs.{inputs_of};

    ghost inputs = { λ words. inputs_of words.given };

    fn line(&mut self, at: Stand, buffer: &mut LineBuffer) -> Typed {
        match self.keys.line(at, buffer) {
            Typed::Line(count) => match word_in(&buffer[..count]) {
                Some(word) => {
                    self.squares.show(word);
                    Typed::Nothing
                }
                None => {
                    self.given = self.given.line(buffer, count);
                    Typed::Line(count)
                }
            },
            Typed::Ended => {
                self.given = self.given.end();
                Typed::Ended
            }
            Typed::Aside(aside) => Typed::Aside(aside),
            Typed::Nothing => Typed::Nothing,
        }
    }

    fn has_more(&self) -> bool {
        self.keys.has_more()
    }

    fn held(&self) -> &[HeldLine] {
        self.keys.held()
    }
}
