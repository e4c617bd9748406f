//! The rows of a table.
use anyhow::{Result, bail, ensure};
use row_table::{Row, take_line};
use std::alloc::Global;

/// The rows of a table. The error is its first damaged line, or that it has no row.
pub fn rows_of(alloc: Global, table: &str) -> Result<Vec<Row<'_>>> {
    let (mut rows, mut base, mut line) = (Vec::new(alloc), 0, 0u64);
    for text in table.split('\n') {
        line = line.saturating_add(1);
        if let Err(flaw) = take_line(alloc, &mut rows, &mut base, text) {
            bail!("line {line}: {flaw}");
        }
    }
    ensure!(!rows.is_empty(), "no row");
    Ok(rows)
}
