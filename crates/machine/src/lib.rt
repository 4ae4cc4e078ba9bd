// The step machine: its definitions are in specs/.

#![tactic(auto)]

// Who leads the lock, as a report tells it: nobody, where it is free; its owner; or the worker that is due, where nobody owns: its turn has
// come and it hasn't looked. Such a lock is spoken for, as the documents say.
#[derive(Clone, Copy)]
pub enum Leader {
    Nobody,
    Owner(u64),
    Due(u64),
}
