//! The rows of a store.
ghost use Rattle.std.specs.Prelude.{◌≡◌, ◌≤◌, length};
ghost use Rattle.std.specs.Iterator.{YieldsFirst, item_count};
ghost use Rattle.row_store.specs.Words.{rows_from};

use crate::words::{is_time, row_in, time_after};
use bus_base::Ns;
use bus_trace::Row;
use std::marker::Model;

/// Goes over the rows of a store. Contracts see it as the list of those that are left.
#[derive(Drop)]
pub struct StoredRows<'a> {
    words: &'a [u64],
    time: Ns,
}

impl<'a> Model for StoredRows<'a> {
    ghost use Rattle.std.specs.Prelude.{List};
    ghost use Rattle.bus_trace.specs.declared.rows.Row.{Row};
    ghost use Rattle.row_store.specs.Words.{rows_from};

    ghost Value = { List Row };

    ghost view = { λ a. rows_from a.time a.words.now };
}

impl<'a> StoredRows<'a> {
    // Those of these words.
    pub(crate) fn of(words: &'a [u64]) -> StoredRows<'a>
        ensures rows { result ≡ rows_from 0 words.now }
        ensures few { length result ≤ length words.now }
    {
        StoredRows { words, time: 0 }
    }
}

impl<'a> Iterator for StoredRows<'a> {
    type Item = Row;

    ghost next_gives = { YieldsFirst (λ s. s) };

    ghost remaining = { item_count (λ s. s) };

    #[inline(always)]
    fn next(&mut self) -> Option<Row> {
        while let Some((word, words)) = self.words.split_first() {
            self.words = words;
            self.time = time_after(self.time, *word);
            if !is_time(*word) {
                return Some(row_in(self.time, *word));
            }
        }
        None
    }
}
