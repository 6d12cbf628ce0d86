//! A store of rows.
ghost use Rattle.std.specs.Prelude.{◌≡◌, ◌∷◌, ◌++◌, ◌<◌, ◌^◌, [], OnOk, OnErr, reverse, length};
ghost use Rattle.bus_trace.specs.Trace.{last_time};

use crate::rows::StoredRows;
use crate::words::{APART, apart, row_word, time_word};
use bus_base::Ns;
use bus_trace::Row;
use std::alloc::{AllocError, Global};
use std::marker::Model;

/// Rows, the oldest first, in eight bytes each; one whose time is 2^36 ns or more after that of the row before, or
/// before it, takes sixteen. Contracts see it as the list of the rows.
#[derive(Drop)]
pub struct RowStore {
    words: Vec<u64>,
    last: Ns,
}

impl Model for RowStore {
    ghost use Rattle.std.specs.Prelude.{◌≡◌, List, reverse};
    ghost use Rattle.bus_trace.specs.declared.rows.Row.{Row};
    ghost use Rattle.bus_trace.specs.Trace.{last_time};
    ghost use Rattle.row_store.specs.Words.{rows_from, last_from};

    ghost Value = { List Row };

    ghost view = { λ a. rows_from 0 a.words.items };

    ghost invariant = { λ a. (a.last ≡ last_from 0 a.words.items)
        × (a.last ≡ last_time (reverse (rows_from 0 a.words.items))) };
}

impl RowStore {
    /// Without rows.
    pub fn new(alloc: Global) -> RowStore
        ensures { result ≡ [] }
    {
        RowStore {
            words: Vec::new(alloc),
            last: 0,
        }
    }

    /// One row more, the last.
    ///
    /// # Errors
    ///
    /// `AllocError` where there was no memory left; the rows are the same then.
    #[inline(always)]
    pub fn push(&mut self, row: &Row) -> Result<(), AllocError>
        ensures added { OnOk result (self.new ≡ self.old ++ row.now ∷ []) }
        ensures kept { OnErr result (self.new ≡ self.old) }
    {
        let Some(apart) = apart(self.last, row.time) else {
            return self.push_far(row);
        };
        self.words.push(row_word(apart, row))?;
        self.last = row.time;
        Ok(())
    }

    // The same of a row whose time is far from that of the row before.
    #[cold]
    #[inline(never)]
    fn push_far(&mut self, row: &Row) -> Result<(), AllocError>
        ensures added { OnOk result (self.new ≡ self.old ++ row.now ∷ []) }
        ensures kept { OnErr result (self.new ≡ self.old) }
    {
        self.words
            .extend_from_slice(&[time_word(row.time), row_word(row.time % APART, row)])?;
        self.last = row.time;
        Ok(())
    }

    /// The time of the last row, in ns, or 0.
    pub fn last_time(&self) -> Ns
        ensures { result ≡ last_time (reverse self.now) }
    {
        self.last
    }

    /// The rows, the oldest first.
    pub fn iter(&self) -> StoredRows<'_>
        ensures rows { result ≡ self.now }
        ensures few { length result < 2 ^ 63 }
    {
        StoredRows::of(&self.words)
    }

    /// How many rows there are, which are counted.
    pub fn len(&self) -> usize
        ensures { result ≡ length self.now }
    {
        StoredRows::of(&self.words).count()
    }
}
