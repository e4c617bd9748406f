ghost use Rattle.std.specs.Prelude.{◌≡◌, ◌↔◌, IsTrue};

use task_base::Kind;

/// Whether the two kinds are one: the same kind of entry, with the same values.
pub fn same_kind(a: &Kind, b: &Kind) -> bool
    ensures { IsTrue result ↔ (a.now ≡ b.now) }
{
    match (*a, *b) {
        (
            Kind::Post {
                task: a_task,
                runner: a_runner,
                delay: a_delay,
                ok: a_ok,
            },
            Kind::Post {
                task: b_task,
                runner: b_runner,
                delay: b_delay,
                ok: b_ok,
            },
        ) => a_task == b_task && a_runner == b_runner && a_delay == b_delay && a_ok == b_ok,
        (
            Kind::Main {
                task: a_task,
                queue: a_queue,
                delay: a_delay,
                ok: a_ok,
            },
            Kind::Main {
                task: b_task,
                queue: b_queue,
                delay: b_delay,
                ok: b_ok,
            },
        ) => a_task == b_task && a_queue == b_queue && a_delay == b_delay && a_ok == b_ok,
        (Kind::Tick { now: a_now }, Kind::Tick { now: b_now }) => a_now == b_now,
        (
            Kind::Take {
                task: a_task,
                runner: a_runner,
                found: a_found,
            },
            Kind::Take {
                task: b_task,
                runner: b_runner,
                found: b_found,
            },
        ) => a_task == b_task && a_runner == b_runner && a_found == b_found,
        (
            Kind::End {
                task: a_task,
                left: a_left,
            },
            Kind::End {
                task: b_task,
                left: b_left,
            },
        ) => a_task == b_task && a_left == b_left,
        (
            Kind::Enter {
                task: a_task,
                scope: a_scope,
            },
            Kind::Enter {
                task: b_task,
                scope: b_scope,
            },
        ) => a_task == b_task && a_scope == b_scope,
        (Kind::Leave { task: a_task }, Kind::Leave { task: b_task }) => a_task == b_task,
        (Kind::Policy { policy: a_policy }, Kind::Policy { policy: b_policy }) => a_policy
            == b_policy,
        (
            Kind::Reprio {
                runner: a_runner,
                priority: a_priority,
            },
            Kind::Reprio {
                runner: b_runner,
                priority: b_priority,
            },
        ) => a_runner == b_runner && a_priority == b_priority,
        (
            Kind::Fence {
                queue: a_queue,
                at: a_at,
            },
            Kind::Fence {
                queue: b_queue,
                at: b_at,
            },
        ) => a_queue == b_queue && a_at == b_at,
        (Kind::Unfence { queue: a_queue }, Kind::Unfence { queue: b_queue }) => a_queue == b_queue,
        (
            Kind::Vote {
                queue: a_queue,
                voter: a_voter,
                on: a_on,
            },
            Kind::Vote {
                queue: b_queue,
                voter: b_voter,
                on: b_on,
            },
        ) => a_queue == b_queue && a_voter == b_voter && a_on == b_on,
        (
            Kind::Rank {
                queue: a_queue,
                class: a_class,
            },
            Kind::Rank {
                queue: b_queue,
                class: b_class,
            },
        ) => a_queue == b_queue && a_class == b_class,
        (Kind::Close { queue: a_queue }, Kind::Close { queue: b_queue }) => a_queue == b_queue,
        (
            Kind::MainTake {
                task: a_task,
                queue: a_queue,
                found: a_found,
            },
            Kind::MainTake {
                task: b_task,
                queue: b_queue,
                found: b_found,
            },
        ) => a_task == b_task && a_queue == b_queue && a_found == b_found,
        (
            Kind::MainEnd {
                task: a_task,
                left: a_left,
            },
            Kind::MainEnd {
                task: b_task,
                left: b_left,
            },
        ) => a_task == b_task && a_left == b_left,
        (Kind::MainNone, Kind::MainNone) => true,
        (
            Kind::JobPost {
                job: a_job,
                ok: a_ok,
            },
            Kind::JobPost {
                job: b_job,
                ok: b_ok,
            },
        ) => a_job == b_job && a_ok == b_ok,
        (
            Kind::JobTake {
                job: a_job,
                id: a_id,
                item: a_item,
            },
            Kind::JobTake {
                job: b_job,
                id: b_id,
                item: b_item,
            },
        ) => a_job == b_job && a_id == b_id && a_item == b_item,
        (
            Kind::JobStep {
                job: a_job,
                id: a_id,
                item: a_item,
                value: a_value,
                next: a_next,
            },
            Kind::JobStep {
                job: b_job,
                id: b_id,
                item: b_item,
                value: b_value,
                next: b_next,
            },
        ) => a_job == b_job
            && a_id == b_id
            && a_item == b_item
            && a_value == b_value
            && a_next == b_next,
        (Kind::JobCancel { job: a_job }, Kind::JobCancel { job: b_job }) => a_job == b_job,
        (Kind::Cancelled { job: a_job }, Kind::Cancelled { job: b_job }) => a_job == b_job,
        (
            Kind::Joined {
                job: a_job,
                reply: a_reply,
            },
            Kind::Joined {
                job: b_job,
                reply: b_reply,
            },
        ) => a_job == b_job && a_reply == b_reply,
        (Kind::Idle, Kind::Idle) => true,
        (Kind::Shutdown, Kind::Shutdown) => true,
        (Kind::Done, Kind::Done) => true,
        _ => false,
    }
}
