ghost use Rattle.std.specs.Prelude.{◌≡◌, None};
ghost use Rattle.live_request.specs.Slots.{IsCalled, IsSlotOpened, Stands};

use crate::answer::Answer;
use crate::codes;
use crate::live::Live;
use crate::opened::Opened;
use crate::request::Request;
use std::alloc::Global;

/// What lies in the memory that C hands in: a live environment, or none where its plan was refused, which takes no memory, and
/// for which each request is a misuse.
#[derive(Drop)]
pub struct Slot {
    live: Option<Live>,
}

impl Slot {
    /// A slot with no environment.
    pub fn empty() -> Slot
        ensures { result.live ≡ None }
    {
        Slot { live: None }
    }

    /// The environment of a plan lies in the slot from then on, or none where the plan is refused. Answers the reason.
    pub fn open(&mut self, alloc: Global, plan: &[u8], opened: &mut Opened) -> u32
        ensures { IsSlotOpened plan.now self.new opened.new result }
    {
        let outcome = Live::open(alloc, plan);
        *opened = Opened::of(&outcome);
        self.live = outcome.ok();
        opened.reason
    }

    /// Does what a request asks, and answers it.
    pub fn call(&mut self, request: &Request, answer: &mut Answer)
        requires { Stands self.old }
        ensures { IsCalled request.now self.old self.new answer.new }
    {
        match &mut self.live {
            Some(live) => live.call(request, answer),
            None => *answer = Answer::bare(codes::MISUSE),
        }
    }

    /// The environment ends, and gives its memory back.
    pub fn close(self) {}
}
