// A list with room for every row that a layout may have.
ghost use Rattle.layout.specs.Layouts.{most_rows};
ghost use Rattle.std.specs.Prelude.{◌≡◌, ◌≤◌, [], ◌∷◌, ◌++◌, length, vec_len, vec_capacity, IfOk, MatchResult};

use lists::full::Full;
use page::row::Row;
use std::alloc::{AllocError, Global};

// The most rows that a layout has.
pub const MAX_ROWS: usize = 1_024;

// The memory is taken at making, so that nothing fails for want of it later. No `impl Model`: callers'
// clauses compare whole sheets, and know of every list that it is short, and a model would hide both.
#[derive(Drop)]
pub struct RowList {
    rows: Vec<Row>,
    ghost few: { vec_len rows ≤ most_rows },
    ghost room: { most_rows ≤ vec_capacity rows },
}

impl RowList {
    pub fn new(heap: Global) -> Result<RowList, AllocError>
        ensures { IfOk result (λ l. l.rows.items ≡ []) }
    {
        let rows = Vec::with_capacity(heap, MAX_ROWS)?;
        Ok(RowList { rows })
    }

    pub fn as_slice(&self) -> &[Row]
        ensures value { result.now ≡ self.now.rows.items }
        ensures few { length self.now.rows.items ≤ most_rows }
    {
        self.rows.as_slice()
    }

    pub fn len(&self) -> usize
        ensures value { result ≡ length self.now.rows.items }
        ensures few { length self.now.rows.items ≤ most_rows }
    {
        self.rows.len()
    }

    pub fn clear(&mut self)
        ensures { self.new.rows.items ≡ [] }
    {
        self.rows.clear();
    }

    // Refuses exactly when all places are taken.
    pub fn push(&mut self, row: Row) -> Result<(), Full>
        ensures value { MatchResult result (λ _. self.new.rows.items ≡ self.old.rows.items ++ row ∷ []) (λ _. (most_rows ≤ length self.old.rows.items) × (self.new.rows ≡ self.old.rows)) }
        ensures few { length self.new.rows.items ≤ most_rows }
    {
        if self.rows.len() >= MAX_ROWS {
            return Err(Full);
        }
        self.rows.push_reserved(row);
        Ok(())
    }
}
