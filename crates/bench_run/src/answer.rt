// What the program prints for a text.
ghost use Rattle.std.specs.Prelude.{◌≡◌, ◌≤◌, ◌^◌, ◌-◌, length, take, drop};
ghost use Rattle.report.specs.Sizes.{longest};
ghost use Rattle.bench.specs.Answer.{store_size, run, printed};

use tools::show;

const NO_LIMIT: u64 = u64::MAX;

// Puts it into the first bytes of an output, and leaves the store as a run does; how many bytes it has.
pub(crate) fn answer(text: &[u8], store: &mut [u64], output: &mut [u8]) -> usize
    requires { (store_size ≤ length store.old) × (longest ≤ length output.old) }
    ensures store { store.new ≡ (run (2 ^ 64 - 1) store.old output.old text.now).store }
    ensures length { (result ≤ length output.new) × (result ≡ length (take result output.new)) }
    ensures bytes { take result output.new ≡ printed text.now }
    ensures later { drop result output.new ≡ drop result output.old }
{
    let ran = bench::run(text, NO_LIMIT, store, output);
    match ran {
        Ok(ran) => ran.length,
        Err(refused) => show(Err(refused), output),
    }
}
