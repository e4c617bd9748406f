ghost use Rattle.std.specs.Prelude.{◌≡◌, List};
ghost use Rattle.task_base.specs.Plan.{Plan};
ghost use Rattle.task_base.specs.declared.entry.Entry.{Entry};
ghost use Rattle.live_request.specs.Answers.{IsAnswered};
ghost use Rattle.live_request.specs.Opening.{ComesOf};
ghost use Rattle.live_request.specs.StandsFor.{StandsFor};

use crate::answer::Answer;
use crate::codes;
use crate::opened::Unopened;
use crate::request::{Ask, Request};
use live_core::OpenError;
use live_roster::LiveRoster;
use plan_text::action_line;
use std::alloc::Global;
use task_base::{MOST_BYTES, Script};
use task_script::{ScriptFault, read_script};

/// The environment of a process, for C: a roster that is asked by requests.
#[derive(Drop)]
pub struct Live {
    roster: LiveRoster,
}

impl Live {
    /// The environment of a plan: the text of a script without actions. Its last seat is the guest's.
    pub fn open(alloc: Global, plan: &[u8]) -> Result<Live, Unopened>
        ensures { ComesOf plan.now result }
    {
        if plan.len() > MOST_BYTES {
            return Err(Unopened::TooLong);
        }
        let script = match read_script(alloc, plan) {
            Ok(script) => script,
            Err(ScriptFault::Bad { line, reason }) => {
                return Err(Unopened::NoPlan { line, reason });
            }
            Err(ScriptFault::Memory(_)) => return Err(Unopened::OutOfMemory),
        };
        if !script.actions.is_empty() {
            return Err(Unopened::HasActions {
                line: action_line(plan),
            });
        }
        match LiveRoster::open(alloc, script) {
            Ok(roster) => Ok(Live { roster }),
            Err(OpenError::OutOfMemory(_)) => Err(Unopened::OutOfMemory),
            Err(OpenError::GuestRunner { runner }) => Err(Unopened::GuestRunner { runner }),
        }
    }

    /// Does what a request asks, and answers it. One that asks nothing is a misuse.
    pub fn call(&mut self, request: &Request, answer: &mut Answer)
        requires { (plan : Plan) × (past : List Entry) × StandsFor plan past self.old }
        ensures { (plan : Plan) (past : List Entry) → StandsFor plan past self.old → IsAnswered plan past request.now self.old self.new answer.new }
    {
        *answer = match request.ask() {
            Some(Ask::Make { by, call }) => {
                let (made, wake) = self.roster.call(by, call);
                Answer::of_call(made, wake)
            }
            Some(Ask::Rest { call }) => {
                let (rest, wake) = self.roster.rest(call);
                Answer::of_rest(rest, wake)
            }
            None => Answer::bare(codes::MISUSE),
        };
    }
}
