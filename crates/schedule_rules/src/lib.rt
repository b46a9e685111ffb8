// A bench schedule: rows in order, what each leaves and what is counted of them; no code that runs.
#![tactic(auto)]

// One row: kind 1 is an attention to the channel `value`, kind 2 a step with the line number `value`.
#[repr(C)]
#[derive(Clone, Copy)]
pub struct ScheduleRow {
    pub kind: u32,
    pub value: u32,
}
