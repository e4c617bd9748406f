ghost use Rattle.std.specs.Prelude.{◌≡◌};
ghost use Rattle.script_model.specs.Draft.{is_bare, has_no_actions};
ghost use Rattle.task_script.specs.Added.{workers_added, groups_added, threshold_added};

use crate::groups::GroupLimits;
use crate::reader::Reader;
use crate::reasons::{CONFIG_TWICE, DECLARATION_LATE};
use script_lines::{LineFault, refuse};

impl Reader {
    ghost use Rattle.task_script.specs.Reader.{draft, Tables, Turns};

    #[tactic(auto, unfolding(crate::specs::Added::workers_added))]
    pub(crate) fn add_workers(&mut self, count: u32) -> Result<(), LineFault>
        requires { Tables self.old }
        ensures { Turns result self.new (workers_added (draft self.old) count) }
    {
        refuse(!self.is_bare(), DECLARATION_LATE)?;
        refuse(self.workers.is_some(), CONFIG_TWICE)?;
        self.workers = Some(count);
        Ok(())
    }

    #[tactic(auto, unfolding(crate::specs::Added::groups_added))]
    pub(crate) fn add_groups(&mut self, limits: GroupLimits) -> Result<(), LineFault>
        requires { Tables self.old }
        ensures { Turns result self.new (groups_added (draft self.old) limits) }
    {
        refuse(!self.is_bare(), DECLARATION_LATE)?;
        refuse(self.groups.is_some(), CONFIG_TWICE)?;
        self.groups = Some(limits);
        Ok(())
    }

    #[tactic(auto, unfolding(crate::specs::Added::threshold_added))]
    pub(crate) fn add_threshold(&mut self, microseconds: u64) -> Result<(), LineFault>
        requires { Tables self.old }
        ensures { Turns result self.new (threshold_added (draft self.old) microseconds) }
    {
        refuse(!self.is_bare(), DECLARATION_LATE)?;
        refuse(self.threshold.is_some(), CONFIG_TWICE)?;
        self.threshold = Some(microseconds);
        Ok(())
    }

    /// Whether nothing was declared yet, and nothing is done yet.
    fn is_bare(&self) -> bool
        ensures { result ≡ is_bare (draft self.now) }
    {
        self.runners.is_empty()
            && self.queues.is_empty()
            && self.tasks.is_empty()
            && self.jobs.is_empty()
            && self.has_no_actions()
    }

    /// Whether nothing is done yet.
    pub(crate) fn has_no_actions(&self) -> bool
        ensures { result ≡ has_no_actions (draft self.now) }
    {
        self.actions.is_empty()
    }
}
