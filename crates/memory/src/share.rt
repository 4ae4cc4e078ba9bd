// The tasks' part of a worker's share: `specs/Shares.antt` says how a worker lies in it. It stays numbers: the caller lends it, as a part of
// the store of numbers.
ghost use Rattle.std.specs.Prelude.{◌≡◌, List, [], ◌∷◌, ◌++◌, ℕ, ◌^◌, ◌<◌, length, get_or};
ghost use Rattle.tasks.specs.Tasks.{Message, Stand};
ghost use Rattle.memory.specs.Layout as layout;
ghost use Rattle.memory.specs.Codes.{Coded, code_of, letter};
ghost use Rattle.memory.specs.Shares.{Stored, standing, added, oldest_add, without_add, posted, oldest_mail, without_mail};

use super::codes::{code_of, coded_by};
use super::layout;

// Sets where the worker stands.
pub fn stand(own: &mut [u64], code: u64, about: u64, left: u64)
    requires { length own.old ≡ layout.part }
    ensures numbers { own.new ≡ standing own.old code about left }
    ensures meaning { (p to : Stand) (mail : List Message) (adds : List ℕ) →
        Stored own.old p mail adds → Coded code about left to → Stored own.new to mail adds }
{
    own[layout::STAND] = code;
    own[layout::ABOUT] = about;
    own[layout::LEFT] = left;
}

// Puts a task behind those to add.
pub fn add(own: &mut [u64], task: u64)
    requires { (length own.old ≡ layout.part) × (get_or own.old layout.adds_at 0 < layout.add_room)
        × (get_or own.old layout.adds_count 0 < layout.add_room) }
    ensures numbers { own.new ≡ added own.old task }
    ensures meaning { (p : Stand) (mail : List Message) (adds : List ℕ) →
        Stored own.old p mail adds → Stored own.new p mail (adds ++ task ∷ []) }
{
    let n = own[layout::ADDS_COUNT];
    let slot = (own[layout::ADDS_AT] + n) % layout::ADD_ROOM;
    own[layout::ADD_SLOTS + slot as usize] = task;
    own[layout::ADDS_COUNT] = n + 1;
}

// Takes the oldest task to add away.
pub fn take_add(own: &mut [u64]) -> u64
    requires { (length own.old ≡ layout.part) × (get_or own.old layout.adds_at 0 < layout.add_room)
        × (0 < get_or own.old layout.adds_count 0) }
    ensures numbers { (result ≡ oldest_add own.old) × (own.new ≡ without_add own.old) }
    ensures meaning { (p : Stand) (mail : List Message) (i : ℕ) (adds : List ℕ) →
        Stored own.old p mail (i ∷ adds) → (result ≡ i) × Stored own.new p mail adds }
{
    let slot = own[layout::ADDS_AT];
    let task = own[layout::ADD_SLOTS + slot as usize];
    own[layout::ADDS_AT] = (slot + 1) % layout::ADD_ROOM;
    own[layout::ADDS_COUNT] = own[layout::ADDS_COUNT] - 1;
    task
}

// A message: where it goes, its flags, and the access that sends it, if one does. In the mailbox it is three numbers, the last the sender
// and 1 more, or 0.
#[derive(Clone, Copy)]
pub struct Letter {
    pub to: u64,
    pub flags: u64,
    pub sender: Option<u64>,
}

// Puts a message behind those in the mailbox.
pub fn post(own: &mut [u64], to: u64, flags: u64, sender: Option<u64>)
    requires { (length own.old ≡ layout.part) × (get_or own.old layout.mail_at 0 < layout.mail_room)
        × (get_or own.old layout.mail_count 0 < layout.mail_room) × (code_of sender < 2 ^ 64) }
    ensures numbers { own.new ≡ posted own.old to flags sender }
    ensures meaning { (p : Stand) (mail : List Message) (adds : List ℕ) (m : Message) →
        Stored own.old p mail adds → letter m ≡ record { to = to; flags = flags; sender = sender }
        → Stored own.new p (mail ++ m ∷ []) adds }
{
    let n = own[layout::MAIL_COUNT];
    let slot = (own[layout::MAIL_AT] + n) % layout::MAIL_ROOM;
    let at = layout::MAIL_SLOTS + layout::MAIL_SLOT * slot as usize;
    own[at + layout::MAIL_TO] = to;
    own[at + layout::MAIL_FLAGS] = flags;
    own[at + layout::MAIL_SENDER] = code_of(sender);
    own[layout::MAIL_COUNT] = n + 1;
}

// Takes the oldest message away.
pub fn take_mail(own: &mut [u64]) -> Letter
    requires { (length own.old ≡ layout.part) × (get_or own.old layout.mail_at 0 < layout.mail_room)
        × (0 < get_or own.old layout.mail_count 0) }
    ensures numbers { (result ≡ oldest_mail own.old) × (own.new ≡ without_mail own.old) }
    ensures meaning { (p : Stand) (m : Message) (mail : List Message) (adds : List ℕ) →
        Stored own.old p (m ∷ mail) adds → (letter m ≡ result) × Stored own.new p mail adds }
{
    let slot = own[layout::MAIL_AT];
    let at = layout::MAIL_SLOTS + layout::MAIL_SLOT * slot as usize;
    let mail = Letter {
        to: own[at + layout::MAIL_TO],
        flags: own[at + layout::MAIL_FLAGS],
        sender: coded_by(own[at + layout::MAIL_SENDER]),
    };
    own[layout::MAIL_AT] = (slot + 1) % layout::MAIL_ROOM;
    own[layout::MAIL_COUNT] = own[layout::MAIL_COUNT] - 1;
    mail
}
