ghost use Rattle.std.specs.Prelude.{◌≡◌, ◌≤◌, ◌<◌, ◌&&◌, ◌||◌, ◌++◌, ◌∷◌, [], ℕ, true, false, List, length, fold, nat_lt, IfOk, IfSome, None};
ghost use Rattle.std.specs.Option.{option_to_list};
ghost use Rattle.task_base.specs.declared.limits.TheConstants.{MOST_WORKERS};
ghost use Rattle.task_base.specs.Plan.{Plan};
ghost use Rattle.task_base.specs.declared.entry.Entry.{Entry as EntryView};
ghost use Rattle.task_model.specs.Time.{now_after, now_of};
ghost use Rattle.simulation.specs.Awaited.{counts_after, later, next_moment, ripe_by, sooner};
ghost use Rattle.simulation.specs.Awaits.{Awaits, is_among};

use std::alloc::{AllocError, Global};
use std::collections::BTreeSet;
use task_base::{Entry, Kind, LAST_MOMENT, Scope, Script};

/// The moments that something waits for, as a run goes on.
#[derive(Drop)]
pub struct Awaited {
    /// The moment of the last tick.
    pub moment: u64,
    /// The moments after it at which accepted tasks ripen.
    pub ripe: BTreeSet<u64>,
    /// For each seat the moment at which its open may-block scope starts to count, and 0 where it has none.
    pub counts: Vec<u64>,
}

impl Awaited {
    /// What is awaited before the first entry: nothing. The error is that memory ran out.
    pub fn nothing(alloc: Global, script: &Script) -> Result<Awaited, AllocError>
        requires { script.now.workers ≤ MOST_WORKERS }
        ensures { IfOk result (Awaits script.now []) }
    {
        Ok(Awaited {
            moment: 0,
            ripe: BTreeSet::new(alloc),
            counts: vec![in alloc; 0; script.workers as usize + 1]?,
        })
    }

    /// One more entry has come. The error is that memory ran out.
    pub fn note(&mut self, script: &Script, entry: &Entry) -> Result<(), AllocError>
        requires seat { entry.now.seat < length self.old.counts.items }
        ensures { (past : List EntryView) → Awaits script.now past self.old → now_of past ≤ now_after (now_of past) entry.now.kind
            → IfOk result (λ _. Awaits script.now (past ++ entry.now ∷ []) self.new) }
    {
        let moment = now_after(self.moment, &entry.kind);
        add_ahead(
            &mut self.ripe,
            self.moment,
            ripe_of(self.moment, &entry.kind),
        )?;
        drop_reached(&mut self.ripe, moment);
        let seat = entry.seat as usize;
        self.counts[seat] = counts_after(
            script.threshold,
            self.moment,
            self.counts[seat],
            &entry.kind,
        );
        self.moment = moment;
        Ok(())
    }

    /// The next moment that is awaited; where none is, the moment of the last tick.
    pub fn next(&self) -> u64
        ensures { (script : Plan) (past : List EntryView) → Awaits script past self.now → result ≡ next_moment script past }
    {
        soonest(self.moment, first_of(&self.ripe), &self.counts).unwrap_or(self.moment)
    }
}

/// The moment after an entry.
fn now_after(now: u64, kind: &Kind) -> u64
    ensures { result ≡ now_after now kind.now }
{
    match *kind {
        Kind::Tick { now: moment } => moment,
        _ => now,
    }
}

/// The moment at which the task ripens that an entry posts.
fn ripe_of(now: u64, kind: &Kind) -> Option<u64>
    ensures { option_to_list result ≡ ripe_by now kind.now }
{
    match *kind {
        Kind::Post {
            delay,
            ok: true,
            ..
        }
        | Kind::Main {
            delay,
            ok: true,
            ..
        } => Some(later(now, delay)),
        _ => None,
    }
}

/// Adds a moment, if there is one and it lies ahead of now. The error is that memory ran out.
fn add_ahead(ripe: &mut BTreeSet<u64>, now: u64, moment: Option<u64>) -> Result<(), AllocError>
    ensures { IfOk result (λ _. (m : ℕ) → is_among m ripe.new.keys ≡ (is_among m ripe.old.keys || (is_among m (option_to_list moment) && nat_lt now m))) }
{
    match moment {
        Some(moment) if now < moment => {
            ripe.insert(moment)?;
            Ok(())
        }
        _ => Ok(()),
    }
}

/// Drops the moments that do not lie ahead of now.
fn drop_reached(ripe: &mut BTreeSet<u64>, now: u64)
    ensures { (m : ℕ) → is_among m ripe.new.keys ≡ (is_among m ripe.old.keys && nat_lt now m) }
{
    while drop_first(ripe, now) {}
}

/// Drops the first moment, where it does not lie ahead of now. Answers whether it did.
fn drop_first(ripe: &mut BTreeSet<u64>, now: u64) -> bool
    ensures ahead { (m : ℕ) → now < m → is_among m ripe.new.keys ≡ is_among m ripe.old.keys }
    ensures kept { (m : ℕ) → is_among m ripe.new.keys ≡ true → is_among m ripe.old.keys ≡ true }
    ensures fewer { result ≡ true → length ripe.new.keys < length ripe.old.keys }
    ensures done { result ≡ false → (m : ℕ) → is_among m ripe.new.keys ≡ true → now < m }
{
    match first_of(ripe) {
        Some(first) if first <= now => {
            let _ = ripe.pop_first();
            true
        }
        _ => false,
    }
}

/// The first of some moments.
fn first_of(moments: &BTreeSet<u64>) -> Option<u64>
    ensures among { IfSome result (λ first. is_among first moments.now.keys ≡ true) }
    ensures least { IfSome result (λ first. (m : ℕ) → is_among m moments.now.keys ≡ true → first ≤ m) }
    ensures none { result ≡ None → (m : ℕ) → is_among m moments.now.keys ≡ false }
{
    match moments.first() {
        Some(first) => Some(*first),
        None => None,
    }
}

/// The moment at which the open may-block scope of a seat starts to count, after an entry of its own.
fn counts_after(threshold: u64, now: u64, counts: u64, kind: &Kind) -> u64
    ensures { result ≡ counts_after threshold now counts kind.now }
{
    match *kind {
        Kind::Enter {
            scope: Scope::May,
            ..
        } => later(now, threshold),
        Kind::Enter {
            scope: Scope::Will,
            ..
        }
        | Kind::Leave { .. } => 0,
        _ => counts,
    }
}

/// The moment that long after now, or the last moment of all.
fn later(now: u64, wait: u64) -> u64
    ensures { result ≡ later now wait }
{
    now.saturating_add(wait).min(LAST_MOMENT)
}

/// The best moment, or the least of these that lies ahead of now, if it is sooner.
fn soonest(now: u64, best: Option<u64>, moments: &[u64]) -> Option<u64>
    ensures { result ≡ fold (sooner now) best moments.now }
{
    moments
        .iter()
        .fold(best, |best, moment| sooner(now, best, *moment))
}

/// The sooner one of a moment that lies ahead of now, if there is one, and another one.
fn sooner(now: u64, best: Option<u64>, moment: u64) -> Option<u64>
    ensures { result ≡ sooner now best moment }
{
    match best {
        None if now < moment => Some(moment),
        Some(best) if now < moment && moment < best => Some(moment),
        best => best,
    }
}
