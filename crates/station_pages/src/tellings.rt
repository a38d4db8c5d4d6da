//! What a desk told its scorer last: values, each with the rows that were printed for it.

ghost use Rattle.screen.specs.Telling.{IsTold};
ghost use Rattle.station_pages.specs.Told.{IsTold-prop};

use crate::told::put_told;
use json::Token;
use json_fields::{Compact, Tokens, begin_array, begin_object, end_array, end_object, put_string};
use screen::Told;
use std::alloc::{AllocError, Global};
use std::str;

/// The largest number of rows kept, unless the newest value alone has more; and of values.
const MOST_ROWS: usize = 40;

/// A value that was told, with its rows.
#[derive(Drop)]
struct Telling {
    /// How many were told until then, itself included.
    number: u64,
    told: Told,
    rows: Vec<Vec<u8>>,
    ghost fine: { IsTold told } by { IsTold-prop told },
}

impl Telling {
    /// Puts it as one object; a row that isn't UTF-8 is a question mark.
    fn put(&self, out: &mut Compact) -> Result<(), AllocError> {
        begin_object(out)?;
        put_told(out, self.number, &self.told)?;
        begin_array(out, "rows")?;
        for row in &self.rows {
            put_string(out, str::from_utf8(row.as_slice()).unwrap_or("?"))?;
        }
        end_array(out)?;
        end_object(out)
    }
}

/// The values told last, the oldest first, with their rows.
#[derive(Drop)]
pub struct Tellings {
    alloc: Global,
    tellings: Vec<Telling>,
    /// How many were told.
    count: u64,
    /// The row that isn't ended yet.
    begun: Vec<u8>,
    /// Whether memory for that row was refused: then it is left out.
    is_cut: bool,
    is_new: bool,
}

impl Tellings {
    /// Begins with none.
    pub fn new(alloc: Global) -> Tellings {
        Tellings {
            alloc,
            tellings: Vec::new(alloc),
            count: 0,
            begun: Vec::new(alloc),
            is_cut: false,
            is_new: false,
        }
    }

    /// Begins the next value: the rows that are printed from now on are its. One for which memory is refused is left out, and
    /// its rows are those of the one before.
    pub fn begin(&mut self, told: Told)
        requires { IsTold told }
    {
        self.count = self.count.saturating_add(1);
        let telling = Telling {
            number: self.count,
            told,
            rows: Vec::new(self.alloc),
        };
        if self.tellings.push(telling).is_ok() {
            self.is_new = true;
        }
        if self.tellings.len() > MOST_ROWS {
            let _oldest = self.tellings.remove(0);
        }
    }

    /// Returns how many rows are kept.
    fn row_count(&self) -> usize {
        let mut count: usize = 0;
        for telling in &self.tellings {
            count = count.saturating_add(telling.rows.len());
        }
        count
    }

    /// Keeps the current row. Drops the oldest value if there are more rows than are kept.
    fn keep_row(&mut self) -> Result<(), AllocError> {
        let mut row = Vec::new(self.alloc);
        row.extend_from_slice(self.begun.as_slice())?;
        if let Some(newest) = self.tellings.last_mut() {
            newest.rows.push(row)?;
        }
        if self.row_count() > MOST_ROWS && self.tellings.len() > 1 {
            let _oldest = self.tellings.remove(0);
        }
        self.is_new = true;
        Ok(())
    }

    /// Ends the current row. One for which memory was refused is left out.
    fn end_row(&mut self) {
        if !self.is_cut {
            let _ = self.keep_row();
        }
        self.begun.clear();
        self.is_cut = false;
    }

    /// Takes what was printed. A row for which memory is refused is left out.
    pub fn take(&mut self, printed: &[u8]) {
        for byte in printed {
            if *byte == b'\n' {
                self.end_row();
            } else if self.begun.push(*byte).is_err() {
                self.is_cut = true;
            }
        }
    }

    /// Puts the values, each as one object.
    fn put(&self, out: &mut Compact) -> Result<(), AllocError> {
        for telling in &self.tellings {
            telling.put(out)?;
        }
        Ok(())
    }

    /// Returns the values as a JSON array on one line, if there is news.
    pub fn take_news(&mut self) -> Result<Option<Vec<u8>>, AllocError> {
        if !self.is_new {
            return Ok(None);
        }
        self.is_new = false;
        let mut out = Compact::new(self.alloc);
        out.token(Token::BeginArray)?;
        self.put(&mut out)?;
        out.token(Token::EndArray)?;
        let mut text = out.into_inner();
        text.push(b'\n')?;
        Ok(Some(text))
    }
}
