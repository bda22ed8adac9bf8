// An able task, as a policy is shown it.
#[derive(Clone, Copy, Debug, PartialEq, Eq)]
pub struct Candidate {
    pub task: u32,
    // The number of the latest record in which the task started or took a step.
    pub stamp: u32,
}
