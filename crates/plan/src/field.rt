// Readers of a plan's own fields, as that of numbers.
ghost use Rattle.std.specs.Prelude.{◌≡◌};
ghost use Rattle.plan.specs.PassFields.{is_label_seen, ReadLabel, writes_seen, ReadAccess};

use crate::access::Access;
use text::read::{Cursor, Field, Malformed};

const LABEL_SIZE: usize = 16;

fn is_label_byte(seen: Option<u8>) -> bool
    ensures { result ≡ is_label_seen seen }
{
    matches!(seen, Some(b'a'..=b'z' | b'A'..=b'Z' | b'0'..=b'9' | b'-'))
}

// A label: 1 to 16 letters, digits or hyphens; its length.
pub fn read_label(cursor: &mut Cursor) -> Result<Field<usize>, Malformed>
    ensures field { ReadLabel cursor.old.text.now cursor.old.at result cursor.new.at }
    ensures text { cursor.new.text.now ≡ cursor.old.text.now }
{
    let mut len: usize = 0;
    // no `for`: where it ends, the byte that ends it is seen, and is judged too
    loop {
        let seen = cursor.look();
        if !is_label_byte(seen) {
            if len < 1 || LABEL_SIZE < len {
                return Err(Malformed::shown_by(seen));
            }
            return Field::ended(len, seen);
        }
        len += 1;
    }
}

// The letter before an address: whether it writes.
fn writes_of(seen: Option<u8>) -> Option<bool>
    ensures { result ≡ writes_seen seen }
{
    match seen {
        Some(b'r') => Some(false),
        Some(b'w') => Some(true),
        _ => None,
    }
}

// An access: r or w, then an address.
pub fn read_access(cursor: &mut Cursor) -> Result<Field<Access>, Malformed>
    ensures field { ReadAccess cursor.old.text.now cursor.old.at result cursor.new.at }
    ensures text { cursor.new.text.now ≡ cursor.old.text.now }
{
    let seen = cursor.look();
    let Some(writes) = writes_of(seen) else {
        return Err(Malformed::shown_by(seen));
    };
    let address = cursor.number()?;
    Ok(Field {
        value: Access {
            writes,
            address: address.value.value,
        },
        more: address.more,
    })
}
