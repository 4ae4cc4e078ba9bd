// What there is room for: `specs/Layout.antt` has the same names.

pub const MOST_TASKS: usize = 128;

pub const MOST_TASK_ACCESSES: usize = 4;
