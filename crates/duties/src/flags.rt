// The flags of an access as one number: READ 1, WRITE 2, DONE 4, NEXT 8, SENT_READ 16, SENT_WRITE 32. A message brings flags, and lies in the
// lent store of numbers: they are added as they lie there.
ghost use Rattle.std.specs.Prelude.{◌≡◌, ◌+◌, ◌*◌};
ghost use Rattle.tasks.specs.Flags.{Flags, flag_number, passes_read, passes_write, satisfied, Once};
ghost use Rattle.memory.specs.Codes.{reader_number};

pub(crate) const READ_WRITE: u64 = 3;

pub(crate) const DONE: u64 = 4;

pub(crate) const NEXT: u64 = 8;

// A flag number's remainder by this is READ and WRITE.
pub(crate) const RIGHTS: u64 = 4;

// READ and WRITE, times this, are SENT_READ and SENT_WRITE.
pub(crate) const SENT: u64 = 16;

// READ 1 and WRITE 2, where they pass on.
pub(crate) fn passing(reader: bool, flags: u64) -> u64
    ensures { (f : Flags) → Once f → flags ≡ flag_number f → result ≡ passes_read (reader_number reader) f + 2 * passes_write f }
{
    if flags / NEXT % 2 == 0 {
        return 0;
    }
    if flags / DONE % 2 == 1 {
        return flags % RIGHTS;
    }
    if reader {
        return flags % 2;
    }
    0
}

// 1 where the access is satisfied, as its task's count falls by that.
pub(crate) fn is_satisfied(reader: bool, flags: u64) -> u64
    ensures { (f : Flags) → Once f → flags ≡ flag_number f → result ≡ satisfied (reader_number reader) f }
{
    if reader {
        return flags % 2;
    }
    if flags % RIGHTS == READ_WRITE {
        return 1;
    }
    0
}
