// The form of a plan: its W line has the workers alone, or slots and capacity too.
ghost use Rattle.std.specs.Prelude.{◌≡◌};
ghost use Rattle.plan.specs.Plan.{slots_of, capacity_of};

// As the documents call them: the first form and the second.
#[derive(Clone, Copy)]
pub enum Form {
    First,
    Second { slots: u64, capacity: u64 },
}

// What the first form means.
const FIRST_SLOTS: u64 = 64;

const FIRST_CAPACITY: u64 = 8;

// The slots of the ring.
pub fn slots_of(form: Form) -> u64
    ensures { result ≡ slots_of form }
{
    match form {
        Form::First => FIRST_SLOTS,
        Form::Second { slots, capacity: _ } => slots,
    }
}

// The capacity of each queue.
pub fn capacity_of(form: Form) -> u64
    ensures { result ≡ capacity_of form }
{
    match form {
        Form::First => FIRST_CAPACITY,
        Form::Second { slots: _, capacity } => capacity,
    }
}
