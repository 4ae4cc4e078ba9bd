// Tasks in rows.
ghost use Rattle.std.specs.Prelude.{◌≡◌, Some};
ghost use Rattle.kept.specs.Tasks.{blank, label_at, with_mask};

use super::layout;
use plan::access::Access;

// A task's row: where its label stands in the text and how long it is; the cost; the mask, if it has an M line; how many accesses there are,
// and these.
#[derive(Clone, Copy)]
pub struct Row {
    pub place: u64,
    pub size: u64,
    pub cost: u64,
    pub mask: Option<u64>,
    pub count: u64,
    pub accesses: [Access; layout::MOST_TASK_ACCESSES],
}

// An access that is not there.
const NO_ACCESS: Access = Access {
    writes: false,
    address: 0,
};

// A row of no task.
pub const BLANK: Row = Row {
    place: 0,
    size: 0,
    cost: 0,
    mask: None,
    count: 0,
    accesses: [NO_ACCESS; layout::MOST_TASK_ACCESSES],
};

// Keeps the mask of task i, as far as the rows reach.
pub fn keep_mask(rows: &mut [Row], i: usize, mask: u64)
    ensures { rows.new ≡ with_mask rows.old i mask }
{
    if i < rows.len() {
        rows[i].mask = Some(mask);
    }
}

// A task's label: the part of the text that its row says, as far as it lies in the text.
pub fn label(text: &[u8], start: usize, len: usize) -> &[u8]
    ensures { result.now ≡ label_at text.now start len }
{
    let start = start.min(text.len());
    let rest = &text[start..];
    &rest[..len.min(rest.len())]
}
