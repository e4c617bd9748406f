ghost use Rattle.std.specs.Prelude.{◌≡◌, ◌%◌, ◌^◌, ◌<◌, [], length, sum_by};
ghost use Rattle.list_laws.specs.Lists.{count};
ghost use Rattle.script_model.specs.Laws.Sound.{IsSound};
ghost use Rattle.hist_model.specs.Legal.{IsLegal};
ghost use Rattle.run_summary.specs.Cells.{AreCells};
ghost use Rattle.run_summary.specs.Summary.{ends_task, ends_item, value_in, summary_of};

use crate::cells::Cells;
use crate::totals::Summary;
use task_base::{Entry, Kind, Rows, Script};

/// The summary of a legal log of the script, reckoned in the cells that were made for it. It takes no memory.
pub fn summary(cells: Cells, script: &Script, log: &Rows<Entry>) -> Summary
    requires plan { IsSound script.now }
    requires legal { IsLegal script.now log.now.items }
    requires cells { AreCells script.now [] cells }
    ensures { result ≡ summary_of script.now log.now.items }
{
    let entries = log.as_slice();
    let cells = cells_behind(cells, script, entries);
    Summary {
        tasks: ended_tasks(entries),
        items: ended_items(entries),
        cells: cells.sum(),
        sums: sum_of_values(entries),
    }
}

/// The cells behind a legal log.
fn cells_behind(mut cells: Cells, script: &Script, log: &[Entry]) -> Cells
    requires legal { IsLegal script.now log.now }
    requires cells { AreCells script.now [] cells }
    ensures { AreCells script.now log.now result }
{
    for entry in log {
        cells.enter(script, entry);
    }
    cells
}

/// How many tasks ended.
fn ended_tasks(log: &[Entry]) -> u32
    requires { length log.now < 2 ^ 32 }
    ensures { result ≡ count (λ e. ends_task e.kind) log.now }
{
    let ended = log
        .iter()
        .filter(|entry| matches!(entry.kind, Kind::End { .. } | Kind::MainEnd { .. }))
        .count();
    ended as u32
}

/// How many items of jobs are done.
fn ended_items(log: &[Entry]) -> u32
    requires { length log.now < 2 ^ 32 }
    ensures { result ≡ count (λ e. ends_item e.kind) log.now }
{
    let ended = log
        .iter()
        .filter(|entry| matches!(entry.kind, Kind::JobStep { .. }))
        .count();
    ended as u32
}

/// The sum of the values of all items, modulo 2^64.
fn sum_of_values(log: &[Entry]) -> u64
    ensures { result ≡ sum_by (λ e. value_in e.kind) log.now % 2 ^ 64 }
{
    let mut total: u64 = 0;
    for entry in log {
        total = total.wrapping_add(value_of(entry));
    }
    total
}

/// The value of the item that an entry ends, or 0 where it ends none.
fn value_of(entry: &Entry) -> u64
    ensures { result ≡ value_in entry.now.kind }
{
    match entry.kind {
        Kind::JobStep { value, .. } => value,
        _ => 0,
    }
}
