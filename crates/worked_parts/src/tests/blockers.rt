//! What blocks shutdown, counted in one word.
ghost use Rattle.std.specs.Prelude.{◌≡◌, ◌≤◌, IfErr};

use blocker_word::{BlockerWord, Control, Done, Idle, Live};
use std::alloc::{AllocError, Global};
use std::process::Abort;
use std::test::Fail;
use std::thread::{Threads, join};

#[test]
fn each_step_shows_in_the_word(rt: HostRuntime) -> Result<(), Fail> {
    let (word, control, idle) = BlockerWord::new(rt.alloc())?;
    let (idle, mut looker) = word.split(idle, 1);
    assert_eq!(rt; word.look(&mut looker), 0);
    let item = match word.begin(idle) {
        Ok(item) => item,
        Err(_) => panic!(rt; "refused before shutdown"),
    };
    assert_eq!(rt; word.look(&mut looker), 4);
    let started = word.start(control);
    assert_eq!(rt; word.look(&mut looker), 5);
    let Err(live) = word.try_done(started) else {
        panic!(rt; "done while an item is live")
    };
    assert_eq!(rt; live.count, 1);
    let idle = word.end(item);
    assert_eq!(rt; word.look(&mut looker), 1);
    assert!(rt; word.try_done(live.started).is_ok());
    assert_eq!(rt; word.look(&mut looker), 3);
    assert!(rt; !rounds(&word, idle, 1).1);
    assert_eq!(rt; word.look(&mut looker), 3);
    Ok(())
}

/// An item begins and ends so many times, until one is refused. It tells whether all were given.
fn rounds(word: &BlockerWord, mut idle: Idle, count: u32) -> (Idle, bool)
    requires of { idle.of ≡ word.now }
    ensures of { result.0.of ≡ word.now }
{
    for _ in 0..count {
        match word.begin(idle) {
            Ok(item) => idle = word.end(item),
            Err(back) => return (back, false),
        }
    }
    (idle, true)
}

/// The same on two threads.
fn two_at_once<R: Threads + Sync>(
    rt: &R,
    word: &BlockerWord,
    idle: Idle,
    count: u32,
) -> (Idle, bool)
    requires of { idle.of ≡ word.now }
    requires wide { 2 ≤ idle.width }
    ensures of { result.0.of ≡ word.now }
{
    let (idle, other) = word.split(idle, 1);
    let ((idle, all), (other, all_others)) = join(
        rt,
        move || rounds(word, idle, count),
        move || rounds(word, other, count),
    );
    (word.join(idle, other), all && all_others)
}

/// The same on four threads.
fn four_at_once<R: Threads + Sync>(
    rt: &R,
    word: &BlockerWord,
    idle: Idle,
    count: u32,
) -> (Idle, bool)
    requires of { idle.of ≡ word.now }
    requires wide { 4 ≤ idle.width }
    ensures of { result.0.of ≡ word.now }
{
    let (idle, other) = word.split(idle, 2);
    let ((idle, all), (other, all_others)) = join(
        rt,
        move || -> (Idle, bool)
            requires of { idle.of ≡ word.now }
            requires wide { 2 ≤ idle.width }
        { two_at_once(rt, word, idle, count) },
        move || -> (Idle, bool)
            requires of { other.of ≡ word.now }
            requires wide { 2 ≤ other.width }
        { two_at_once(rt, word, other, count) },
    );
    (word.join(idle, other), all && all_others)
}

/// The same on eight threads.
fn eight_at_once<R: Threads + Sync>(
    rt: &R,
    word: &BlockerWord,
    idle: Idle,
    count: u32,
) -> (Idle, bool)
    requires of { idle.of ≡ word.now }
    requires wide { 8 ≤ idle.width }
    ensures of { result.0.of ≡ word.now }
{
    let (idle, other) = word.split(idle, 4);
    let ((idle, all), (other, all_others)) = join(
        rt,
        move || -> (Idle, bool)
            requires of { idle.of ≡ word.now }
            requires wide { 4 ≤ idle.width }
        { four_at_once(rt, word, idle, count) },
        move || -> (Idle, bool)
            requires of { other.of ≡ word.now }
            requires wide { 4 ≤ other.width }
        { four_at_once(rt, word, other, count) },
    );
    (word.join(idle, other), all && all_others)
}

/// Two threads count, and a third shuts down once.
fn shutdown_beside_two<R: Threads + Sync>(
    rt: &R,
    word: &BlockerWord,
    idle: Idle,
    control: Control,
) -> (Idle, Result<Done, Live>)
    requires idle { idle.of ≡ word.now }
    requires wide { 2 ≤ idle.width }
    requires control { control.of ≡ word.now }
    ensures idle { result.0.of ≡ word.now }
    ensures live { IfErr result.1 (λ live. live.started.of ≡ word.now) }
{
    let ((idle, _), answer) = join(
        rt,
        move || -> (Idle, bool)
            requires of { idle.of ≡ word.now }
            requires wide { 2 ≤ idle.width }
        { two_at_once(rt, word, idle, 1_000) },
        move || word.try_done(word.start(control)),
    );
    (idle, answer)
}

/// A shutdown that was not done beside the two threads is done afterwards.
fn shut_down<R: Abort + Threads + Sync>(rt: &R, alloc: Global) -> Result<(), AllocError> {
    let (word, control, idle) = BlockerWord::new(alloc)?;
    let (idle, mut looker) = word.split(idle, 1);
    let (idle, answer) = shutdown_beside_two(rt, &word, idle, control);
    match answer {
        Ok(_done) => {}
        Err(live) => {
            assert_eq!(rt; word.look(&mut looker), 1);
            assert!(rt; word.try_done(live.started).is_ok());
        }
    }
    assert_eq!(rt; word.look(&mut looker), 3);
    assert!(rt; !rounds(&word, idle, 1).1);
    Ok(())
}

#[test]
fn shutdown_is_done_beside_two_threads(rt: HostRuntime) -> Result<(), Fail> {
    for _ in 0..100 {
        shut_down(&rt, rt.alloc())?;
    }
    Ok(())
}

#[test]
fn eight_threads_count_at_once(rt: HostRuntime) -> Result<(), Fail> {
    let (word, control, idle) = BlockerWord::new(rt.alloc())?;
    let (mut idle, all) = eight_at_once(&rt, &word, idle, 10_000);
    assert!(rt; all);
    assert_eq!(rt; word.look(&mut idle), 0);
    assert!(rt; word.try_done(word.start(control)).is_ok());
    Ok(())
}
