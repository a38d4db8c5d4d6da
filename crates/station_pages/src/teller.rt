//! Tells a desk's page what the desk tells its scorer.

use crate::scorers_page::ScorersPage;
use screen::{TellLog, Tells, Told};
use std::cell::RefCell;

/// Tells a desk's page, if there is one, what the desk tells its scorer.
#[derive(Drop)]
pub struct PageTeller<'p> {
    page: Option<&'p RefCell<ScorersPage>>,
    log: TellLog,
}

impl<'p> PageTeller<'p> {
    ghost use Rattle.std.specs.Prelude.{◌≡◌, []};
    ghost use Rattle.screen.specs.Telling.{tellings_of};

    /// Begins with this page, which was told nothing yet.
    pub fn new(page: Option<&'p RefCell<ScorersPage>>) -> PageTeller<'p>
        ensures { tellings_of result.log ≡ [] }
    {
        PageTeller {
            page,
            log: TellLog::Empty,
        }
    }

    /// Returns what was told. Only clauses read it.
    pub fn log(&self) -> &TellLog
        ensures { result.now ≡ self.now.log }
    {
        &self.log
    }
}

impl Tells for PageTeller<'_> {
    ghost use Rattle.screen.specs.Telling.{tellings_of};

    ghost tellings = { λ teller. tellings_of teller.log };

    fn tell(&mut self, told: Told) {
        let same = told;
        self.log = self.log.told(same);
        if let Some(page) = self.page
            && let Ok(mut page) = page.try_borrow_mut()
        {
            page.tell(told);
        }
    }
}
