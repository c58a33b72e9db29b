// When a link is to be called: the schedule that updates keep, and the time that a check names.
#![tactic(auto)]

pub mod times;

// The schedule: the next flush time, and whether an update has been made. No Option: the state has a next time before the first update
// too, which `schedule_of` reads from the block, and the laws of schedules speak of it.
#[derive(Clone, Copy)]
pub struct Schedule {
    pub next: u32,
    pub made: bool,
}

// What an update does to the schedule: the next schedule, and whether the flush runs.
#[derive(Clone, Copy)]
pub struct Updated {
    pub schedule: Schedule,
    pub flushes: bool,
}
