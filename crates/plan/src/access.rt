// An access of a task to an address. The definitions have the same type.

// It writes, or else it reads.
#[derive(Clone, Copy, PartialEq, Eq)]
pub struct Access {
    pub writes: bool,
    pub address: u64,
}
