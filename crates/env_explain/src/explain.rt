ghost use Rattle.std.specs.Prelude.{◌≡◌, ◌≢◌, ◌<◌, ◌≤◌, ◌^◌, ℕ, List, Option, Some, None, IfOk, IfSome, false, length, true};
ghost use Rattle.std.specs.List.{list_all};
ghost use Rattle.script_model.specs.Laws.Sound.{IsSound};
ghost use Rattle.task_base.specs.Plan.{Plan};
ghost use Rattle.task_base.specs.declared.entry.Entry.{Entry as AnyEntry};
ghost use Rattle.task_base.specs.declared.entry.Kind.{Kind as AnyKind};
ghost use Rattle.task_model.specs.Seats.{is_free};
ghost use Rattle.hist_model.specs.Script.{is_whole};
ghost use Rattle.env_step.specs.Hands.{AreInHand, is_empty};
ghost use Rattle.env_step.specs.Steps.{WaitsFor};
ghost use Rattle.next_entry.specs.Causes.{Explains, is_of_work, takes_source};
ghost use Rattle.env_check.specs.declared.verdict.Verdict.{Verdict};
ghost use Rattle.env_explain.specs.Explained.{HasInHand, HasMore, IsExplained, busy_below, goes_on, verdict_told, work_in};

use env_core::Env;
use env_step::{Hand, Hands, Wait};
use log_replay::{Replay, discard, reading_of};
use next_entry::{Busy, Cause, Explanation, Work, next_of_worker};
use std::alloc::{AllocError, Global};
use task_base::{Entry, Kind, Place, Script, SeatNo};
use task_body::ScriptBody;

/// Why an entry may not come behind those that were followed.
pub fn explain(replay: Replay, script: &Script, past: &[Entry], entry: Entry) -> Cause
    requires plan { IsSound replay.script }
    requires script { script.now ≡ replay.script }
    requires past { past.now ≡ replay.history }
    requires few { length past.now < 2 ^ 32 }
    ensures { Explains result replay.script replay.history entry.seat (Some entry.kind) }
{
    match stray(&replay, script, &entry) {
        Some(cause) => {
            replay.discard();
            cause
        }
        None => expected(replay, script, past, &entry),
    }
}

/// What a seat of the script does next in place of the entry, or why it may do nothing.
fn expected(replay: Replay, script: &Script, past: &[Entry], entry: &Entry) -> Cause
    requires plan { IsSound replay.script }
    requires script { script.now ≡ replay.script }
    requires past { past.now ≡ replay.history }
    requires few { length past.now < 2 ^ 32 }
    requires known { entry.now.seat ≤ replay.script.workers }
    ensures { Explains result replay.script replay.history entry.now.seat (Some entry.now.kind) }
{
    if entry.seat > 0 && replay.is_free(entry.seat) {
        return choice(replay, script, past, entry);
    }
    let (mut env, mut hands) = replay.into_parts();
    let reading = reading_of(&entry.kind);
    let cause = next_of_seat(&mut env, &mut hands, script, entry.seat, reading);
    discard(env, hands);
    cause
}

/// What a worker takes next that is free, or why it takes nothing.
fn choice(replay: Replay, script: &Script, past: &[Entry], entry: &Entry) -> Cause
    requires plan { IsSound replay.script }
    requires script { script.now ≡ replay.script }
    requires past { past.now ≡ replay.history }
    requires few { length past.now < 2 ^ 32 }
    requires worker { 1 ≤ entry.now.seat }
    requires known { entry.now.seat ≤ replay.script.workers }
    requires free { is_free replay.history entry.now.seat ≡ true }
    ensures { Explains result replay.script replay.history entry.now.seat (Some entry.now.kind) }
{
    let (mut env, hands) = replay.into_parts();
    let cause = next_of_worker(&mut env, hands.as_slice(), script, past, entry);
    discard(env, hands);
    cause
}

/// Why no seat, or no worker that is free, ever makes the entry.
fn stray(replay: &Replay, script: &Script, entry: &Entry) -> Option<Cause>
    requires { script.now ≡ replay.now.script }
    ensures known { result ≡ None → entry.now.seat ≤ replay.now.script.workers }
    ensures cause { IfSome result (λ cause. Explains cause replay.now.script replay.now.history entry.now.seat (Some entry.now.kind)) }
{
    if entry.seat > script.workers {
        return Some(Cause::NoSeat);
    }
    if entry.seat == 0 {
        return None;
    }
    if !replay.is_free(entry.seat) {
        return None;
    }
    if is_of_work(&entry.kind) {
        return Some(Cause::RunsNothing);
    }
    if !takes_source(&entry.kind) {
        return Some(Cause::OnlyDriver);
    }
    None
}

/// What is left to be done where the log ends at this place, behind the entries that were followed. The error is want of
/// memory.
pub fn explain_end(
    replay: Replay,
    alloc: Global,
    script: &Script,
    place: Place,
) -> Result<Explanation, AllocError>
    requires plan { IsSound replay.script }
    requires script { script.now ≡ replay.script }
    requires place { place ≡ length replay.history }
    requires more { is_whole replay.script replay.history ≡ false }
    ensures verdict { IfOk result (λ told. verdict_told told ≡ Verdict.Illegal place) }
    ensures cause { IfOk result (λ told. IsExplained replay.script replay.history told) }
{
    let (mut env, mut hands) = replay.into_parts();
    let told = end_told(&mut env, &mut hands, alloc, script, place);
    discard(env, hands);
    told
}

/// What is left to be done at the end of a log that led to this environment, with this in the seats' hands.
fn end_told(
    env: &mut Env<ScriptBody>,
    hands: &mut Hands,
    alloc: Global,
    script: &Script,
    place: Place,
) -> Result<Explanation, AllocError>
    requires plan { IsSound env.old.script }
    requires script { script.now ≡ env.old.script }
    requires place { place ≡ length env.old.history }
    requires more { is_whole env.old.script env.old.history ≡ false }
    requires hands { AreInHand env.old hands.old }
    ensures verdict { IfOk result (λ told. verdict_told told ≡ Verdict.Illegal place) }
    ensures cause { IfOk result (λ told. IsExplained env.old.script env.old.history told) }
{
    let busy = busy_seats(alloc, hands.as_slice(), script.workers + 1)?;
    if busy.len() > 1 && env.is_finished() {
        return Ok(Explanation::AtWork { place, busy });
    }
    let (seat, cause) = left(env, hands, script);
    Ok(Explanation::Unfinished { place, seat, cause })
}

/// What is left to be done where the log ends, and of which seat: the first one that runs or holds something, or else the
/// driver.
fn left(env: &mut Env<ScriptBody>, hands: &mut Hands, script: &Script) -> (SeatNo, Cause)
    requires plan { IsSound env.old.script }
    requires script { script.now ≡ env.old.script }
    requires more { is_whole env.old.script env.old.history ≡ false }
    requires hands { AreInHand env.old hands.old }
    ensures known { result.0 ≤ env.old.script.workers }
    ensures more { HasMore env.old.script env.old.history result.0 }
    ensures cause { Explains result.1 env.old.script env.old.history result.0 None }
{
    match first_busy(hands.as_slice()) {
        None => (0, next_of_seat(env, hands, script, 0, 0)),
        Some(seat) => {
            let seat = seat as SeatNo;
            (seat, next_of_seat(env, hands, script, seat, 0))
        }
    }
}

/// What a seat does next by what it has in hand, or why it may do nothing.
fn next_of_seat(
    env: &mut Env<ScriptBody>,
    hands: &mut Hands,
    script: &Script,
    seat: SeatNo,
    reading: u64,
) -> Cause
    requires script { script.now ≡ env.old.script }
    requires known { seat ≤ env.old.script.workers }
    requires busy { 1 ≤ seat → is_free env.old.history seat ≡ false }
    requires hands { AreInHand env.old hands.old }
    ensures { (kind : Option AnyKind) → Explains result env.old.script env.old.history seat kind }
{
    let work = work_in(hands.at(seat));
    match hands.step(env, script, seat, reading) {
        Ok(next) => goes_on(work, next),
        Err(wait) => waits_for(wait),
    }
}

/// That a seat goes on by this entry, which runs or holds this.
fn goes_on(work: Option<Work>, next: Kind) -> Cause
    ensures { result ≡ goes_on work next }
{
    match work {
        None => Cause::Wants { next },
        Some(Work::Task { task }) => Cause::Runs { task, next },
        Some(Work::Item { job }) => Cause::Holds { job, next },
    }
}

/// That a seat waits for this, which is no worker that is free.
fn waits_for(wait: Wait) -> Cause
    requires { wait ≢ Wait.NoSource }
    ensures { (script : Plan) (past : List AnyEntry) (seat : ℕ) (kind : Option AnyKind) → WaitsFor wait script past seat → Explains result script past seat kind }
{
    match wait {
        Wait::Over => Cause::Finished,
        Wait::NoSource => unreachable!(),
        Wait::NotIdle { running, ready } => Cause::NotIdle { running, ready },
        Wait::Inside { job, seats } => Cause::Inside { job, seats },
        Wait::Blocked { count } => Cause::Blocked { count },
    }
}

/// The seats below a number that have something in hand, each with what it runs or holds. The error is want of memory.
fn busy_seats(alloc: Global, hands: &[Hand], seats: u32) -> Result<Vec<Busy>, AllocError>
    requires { seats ≡ length hands.now }
    ensures { IfOk result (λ busy. busy.items ≡ busy_below hands.now seats) }
{
    let mut busy = Vec::new(alloc);
    for seat in 0..seats {
        match work_in(&hands[seat as usize]) {
            None => {}
            Some(work) => busy.push(Busy { seat, work })?,
        }
    }
    Ok(busy)
}

/// What a seat runs or holds that has this in hand.
fn work_in(hand: &Hand) -> Option<Work>
    ensures { result ≡ work_in hand.now }
{
    match hand {
        Hand::Free => None,
        Hand::Task(at) => Some(Work::Task {
            task: at.work.task(),
        }),
        Hand::Item(pass) => Some(Work::Item { job: pass.job() }),
    }
}

/// The first seat that has something in hand.
fn first_busy(hands: &[Hand]) -> Option<usize>
    ensures none { result ≡ None → list_all is_empty hands.now ≡ true }
    ensures some { IfSome result (λ seat. HasInHand hands.now seat) }
{
    let mut seat = 0;
    for hand in hands {
        if !matches!(hand, Hand::Free) {
            return Some(seat);
        }
        seat += 1;
    }
    None
}

/// Whether a task makes the entry, or a job.
fn is_of_work(kind: &Kind) -> bool
    ensures { result ≡ is_of_work kind.now }
{
    matches!(
        *kind,
        Kind::Post { .. }
            | Kind::Main { .. }
            | Kind::End { .. }
            | Kind::Enter { .. }
            | Kind::Leave { .. }
            | Kind::JobStep { .. }
    )
}

/// Whether the entry takes a source of the pool.
fn takes_source(kind: &Kind) -> bool
    ensures { result ≡ takes_source kind.now }
{
    matches!(*kind, Kind::Take { .. } | Kind::JobTake { .. })
}
