// Where the labels stand in the plan's text. `specs/Labels.antt` says which task a label is of.

// The place of a label's first byte, and how many bytes it has.
#[derive(Clone, Copy)]
pub struct Label {
    pub place: u64,
    pub size: u64,
}

// What stands where no label is laid yet.
pub const NO_LABEL: Label = Label { place: 0, size: 0 };
