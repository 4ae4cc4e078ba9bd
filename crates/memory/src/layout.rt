// How many tasks and accesses there is room for, and where a worker's share lies in numbers: `specs/Layout.antt` has the same names.

// What there is room for. The tasks' side has its own sizes, as another plan's reader would: a setup within both is `Sized`.
pub const MOST_WORKERS: usize = 32;

pub const MOST_TASKS: usize = 128;

const MOST_TASK_ACCESSES: usize = 4;

pub const MOST_ACCESSES: usize = MOST_TASKS * MOST_TASK_ACCESSES;

// A worker's share stays numbers, as it lies in the store of numbers that the caller lends: the device's part, and behind it the tasks'.
pub const SHARE: usize = 256;

pub const STATION: usize = 96;

// The numbers of the tasks' part: the stand, what it is about and what is left of it; of the tasks to add and of the mail, the slot of the
// oldest and how many there are.
pub const STAND: usize = 0;

pub const ABOUT: usize = 1;

pub const LEFT: usize = 2;

pub(crate) const ADDS_AT: usize = 4;

pub const ADDS_COUNT: usize = 5;

pub(crate) const MAIL_AT: usize = 6;

pub const MAIL_COUNT: usize = 7;

// The slots: where they begin, how many numbers each has, and how many there are.
pub(crate) const MAIL_SLOTS: usize = 16;

pub(crate) const MAIL_SLOT: usize = 4;

pub(crate) const MAIL_ROOM: u64 = 4;

pub(crate) const MAIL_TO: usize = 0;

pub(crate) const MAIL_FLAGS: usize = 1;

pub(crate) const MAIL_SENDER: usize = 2;

pub(crate) const ADD_SLOTS: usize = 32;

pub(crate) const ADD_ROOM: u64 = 128;

// Stands: numbers, as a share lies in the lent store.
pub const FREE: u64 = 0;

pub const TELLING: u64 = 1;

pub const WORKING: u64 = 2;
