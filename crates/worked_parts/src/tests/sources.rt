//! A queue of many sources.
ghost use Rattle.std.specs.Prelude.{◌≡◌, ◌<◌};
ghost use Rattle.sequence_queue.specs.Ranked.{IsAmong, IsMadeFor};

use sequence_queue::{Rank, SourceQueue};
use std::test::Fail;
use task_base::{Key, Priority, TaskSource};

const SEQUENCES: u32 = 8_000;

const JOBS: u32 = 2_000;

const SOURCES: u32 = 10_000;

// A source by its number: jobs behind sequences.
fn source(number: u32) -> TaskSource
    requires { number < SOURCES }
    ensures { IsAmong SEQUENCES JOBS result }
{
    if number < SEQUENCES {
        TaskSource::Sequence(number)
    } else {
        TaskSource::Job(number - SEQUENCES)
    }
}

// Ranks in no order, with each priority, some equal numbers inside and some equal moments; the posts differ.
fn rank(number: u32, round: u32) -> Rank {
    let mixed = number.wrapping_mul(7_919).wrapping_add(round) % 10_007;
    let priority = match mixed % 3 {
        0 => Priority::BestEffort,
        1 => Priority::UserVisible,
        _ => Priority::UserBlocking,
    };
    let key = Key {
        place: mixed % 13,
        ripe: u64::from(mixed % 11),
        post: number,
    };
    Rank {
        priority,
        inside: mixed % 5,
        key,
    }
}

// Holds the source with this rank, whether it was held or not.
fn hold(queue: &mut SourceQueue, source: TaskSource, rank: Rank)
    requires { IsMadeFor queue.old source }
    ensures sequences { queue.new.sequences ≡ queue.old.sequences }
    ensures jobs { queue.new.jobs ≡ queue.old.jobs }
{
    if !queue.rekey(source, rank) {
        queue.insert(source, rank);
    }
}

// The rank that goes before all others, found by looking at each.
fn plain_best(ranks: &[Option<Rank>]) -> Option<Rank> {
    let mut best: Option<Rank> = None;
    for rank in ranks {
        best = lesser(best, *rank);
    }
    best
}

fn lesser(best: Option<Rank>, rank: Option<Rank>) -> Option<Rank> {
    match (best, rank) {
        (Some(old), Some(new)) if !new.is_below(&old) => Some(old),
        (_, Some(new)) => Some(new),
        (old, None) => old,
    }
}

// Whether the best of the queue is the plain best.
fn agrees(queue: &SourceQueue, ranks: &[Option<Rank>]) -> bool {
    queue.best().map(|best| best.1) == plain_best(ranks)
}

#[test]
fn best_beside_a_plain_least(rt: HostRuntime) -> Result<(), Fail> {
    let alloc = rt.alloc();
    let mut queue = SourceQueue::new(alloc, SEQUENCES, JOBS)?;
    let mut ranks = vec![in alloc; None; SOURCES as usize]?;
    assert!(rt; queue.best().is_none());
    for round in 0..2 {
        for number in 0..SOURCES {
            let rank = rank(number, round);
            hold(&mut queue, source(number), rank);
            ranks[number as usize] = Some(rank);
            assert!(rt; agrees(&queue, &ranks), "round {round}, number {number}");
        }
    }
    for number in 0..SOURCES {
        // Every third source first, then the others.
        let number = number * 3 % SOURCES;
        let was_held = queue.remove(source(number));
        assert_eq!(rt; was_held, ranks[number as usize].is_some());
        ranks[number as usize] = None;
        assert!(rt; agrees(&queue, &ranks), "without {number}");
    }
    assert!(rt; queue.best().is_none());
    assert!(rt; !queue.remove(TaskSource::Job(0)));
    Ok(())
}
