// A task's negative acknowledgement.
#[derive(Clone, Copy, Debug, PartialEq, Eq)]
pub enum Nack {
    // Of a sync that waits: the with-nack with this number among those of that sync started the task.
    Pending { sync: u32, branch: u8 },
    // The sync was settled outside that with-nack.
    Fired,
    // It was settled inside, or no with-nack started the task.
    Void,
}
