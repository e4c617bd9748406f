//! The two lanes of a main queue.
use std::alloc::AllocError;
use std::test::Fail;
use task_base::Lane;
use work_queue::{Queued, WorkQueue};

/// A thousand pushes and pops in turn beside plain lists, with one clear among them, and then pops until none is left.
/// At first most tasks are immediate, and in the second half most are delayed.
#[test]
fn lanes_beside_plain_lists(rt: HostRuntime) -> Result<(), Fail> {
    let mut queue = WorkQueue::new(rt.alloc(), 1000)?;
    let mut plain = Plain {
        immediate: Vec::new(rt.alloc()),
        delayed: Vec::new(rt.alloc()),
    };
    for number in 0..1000 {
        let lane = lane_to_push(number);
        queue.push(lane, number / 2, u64::from(number));
        plain.push(lane, queued(number / 2, u64::from(number)))?;
        assert!(rt; agrees(&queue, &plain), "pushed {number}");
        if number == 300 {
            queue.clear();
            plain.clear();
        }
        let lane = lane_to_pop(number);
        assert_eq!(rt; queue.pop(lane), plain.pop(lane), "popped at {number}");
        assert!(rt; agrees(&queue, &plain), "popped at {number}");
    }
    for turn in 0..1000 {
        let lane = lane_to_pop(turn);
        assert_eq!(rt; queue.pop(lane), plain.pop(lane), "popped in turn {turn}");
    }
    assert!(rt; plain.immediate.is_empty() && plain.delayed.is_empty());
    assert!(rt; agrees(&queue, &plain));
    Ok(())
}

/// The tasks of both lanes as plain lists.
#[derive(Drop)]
struct Plain {
    immediate: Vec<Queued>,
    delayed: Vec<Queued>,
}

impl Plain {
    fn push(&mut self, lane: Lane, queued: Queued) -> Result<(), AllocError> {
        match lane {
            Lane::Immediate => self.immediate.push(queued)?,
            Lane::Delayed => self.delayed.push(queued)?,
        }
        Ok(())
    }

    fn pop(&mut self, lane: Lane) -> Option<Queued> {
        match lane {
            Lane::Immediate => take_first(&mut self.immediate),
            Lane::Delayed => take_first(&mut self.delayed),
        }
    }

    fn clear(&mut self) {
        self.immediate.clear();
        self.delayed.clear();
    }
}

fn take_first(plain: &mut Vec<Queued>) -> Option<Queued> {
    if plain.is_empty() {
        return None;
    }
    Some(plain.remove(0))
}

/// Whether the first tasks are those of the plain lists.
fn agrees(queue: &WorkQueue, plain: &Plain) -> bool {
    queue.front(Lane::Immediate) == plain.immediate.first().copied()
        && queue.front(Lane::Delayed) == plain.delayed.first().copied()
}

fn queued(task: u32, order: u64) -> Queued {
    Queued { task, order }
}

fn lane_to_push(number: u32) -> Lane {
    if (number % 5 < 3) == (number < 500) {
        Lane::Immediate
    } else {
        Lane::Delayed
    }
}

fn lane_to_pop(number: u32) -> Lane {
    if number % 2 == 0 {
        Lane::Immediate
    } else {
        Lane::Delayed
    }
}
