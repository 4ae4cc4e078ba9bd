// An order line: which workers are picked, and how many picks that is. The definitions have the same type.

// A worker so many times, so many rounds of all workers, or a seed and so many seeded picks. In range a count is a million at most and a
// worker below 32, so that 32 bits hold them. Fields lie as they stand here: with its count before its seed an order line has 16 bytes,
// and a run of a long text has 16,384 of them on the stack.
#[derive(Clone, Copy, PartialEq, Eq)]
pub enum Order {
    Picks { worker: u32, count: u32 },
    Rounds { count: u32 },
    Seeded { count: u32, seed: u64 },
}
