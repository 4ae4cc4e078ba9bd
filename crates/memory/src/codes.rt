// A number that there may be, where it lies in a store of numbers: as 1 more, or as 0 for none.
ghost use Rattle.std.specs.Prelude.{◌≡◌, ◌^◌, ◌<◌};
ghost use Rattle.memory.specs.Codes.{code_of, coded_by};

pub fn code_of(number: Option<u64>) -> u64
    requires { code_of number < 2 ^ 64 }
    ensures { result ≡ code_of number }
{
    match number {
        None => 0,
        Some(n) => n + 1,
    }
}

pub fn coded_by(code: u64) -> Option<u64>
    ensures { result ≡ coded_by code }
{
    code.checked_sub(1)
}
