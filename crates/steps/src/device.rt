// What the device keeps in memory: the ready list, and by task who gave it and who may run it.
use super::layout::READY_SLOTS;
use memory::layout::MOST_TASKS;

// The circular buffer of the ready list; by task, the worker that gave it, if one did; by task, its mask.
#[derive(Drop)]
pub struct Device {
    pub ready: [u64; READY_SLOTS],
    pub givers: [Option<u64>; MOST_TASKS],
    pub masks: [u64; MOST_TASKS],
}
