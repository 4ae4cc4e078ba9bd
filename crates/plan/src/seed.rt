// Seeded picks: the generator's states and the workers that they pick.
ghost use Rattle.std.specs.Prelude.{◌≡◌, ◌*◌, ◌/◌, ◌%◌, ◌^◌, ◌<◌};
ghost use Rattle.plan.specs.Orders.{next_state};

const MULTIPLIER: u64 = 6364136223846793005;

const INCREMENT: u64 = 1442695040888963407;

const HALF: u64 = 0x1_0000_0000;

// The product modulo 2^64, by halves of 32 bits: the product of the two upper halves counts for nothing.
// The library has this as a method: a rule of the project wants a helper of the crate's own, beside the library's wrapping sum.
fn wrapping_mul(a: u64, b: u64) -> u64
    ensures { result ≡ a * b % 2 ^ 64 }
{
    let low = (a % HALF) * (b % HALF);
    let cross = (a / HALF) * (b % HALF) % HALF + (a % HALF) * (b / HALF) % HALF;
    low.wrapping_add(cross % HALF * HALF)
}

// The state that follows a state.
pub fn next_state(state: u64) -> u64
    ensures { result ≡ next_state state }
{
    wrapping_mul(state, MULTIPLIER).wrapping_add(INCREMENT)
}

// The worker that a state picks.
pub fn seeded_worker(state: u64, workers: u64) -> u64
    requires { 0 < workers }
    ensures { result ≡ state / 2 ^ 32 % workers }
{
    state / HALF % workers
}
