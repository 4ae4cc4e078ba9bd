// Where the device's numbers lie: the names of offsets and codes. `specs/Layout.antt` has the same. The device's part of a share stays
// numbers: it lies in the store of numbers that the caller lends.
// In the device's part: the place, what it speaks of, how many are queued, the slot of a ticket that is waited with; the queue's slots.
pub const PLACE: usize = 0;

pub const NUMBER: usize = 1;

pub const QUEUED: usize = 2;

pub const SLOT: usize = 3;

pub(crate) const QUEUE: usize = 8;

// The places: an owner's are from SERVING on, and those that drain are the last. They are numbers, as a share lies in the lent store.
pub const IDLE: u64 = 0;

pub const TRYING: u64 = 1;

pub const REGISTERING: u64 = 2;

pub const LOOKING: u64 = 3;

pub const SERVING: u64 = 4;

pub const HANDING: u64 = 5;

pub const LEAVING: u64 = 6;

pub const DRAINING_TO_SERVE: u64 = 7;

pub const DRAINING_TO_ADD: u64 = 8;

// The most slots of a ring; the slots of the ready list, also as the length of its array.
pub const MOST_SLOTS: usize = 64;

pub const READY: u64 = 128;

pub const READY_SLOTS: usize = READY as usize;
