/// How what a text declares is run.
#[derive(Clone, Copy, Debug, PartialEq, Eq)]
pub enum PlanKind {
    /// As a script: its driver does its actions, and its tasks their steps.
    Closed,
    /// As an open plan: the driver and the tasks enter what they like.
    Open,
}
