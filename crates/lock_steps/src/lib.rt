// The steps of a worker at the lock, and of the lock's owner. They rest on what the lock's and the tasks' functions promise.

#![tactic(auto)]

ghost use Rattle.std.specs.Prelude.{◌≡◌, ◌<◌, length, get_or};
ghost use Rattle.memory.specs.Layout as layout;
ghost use Rattle.steps.specs.Layout.{share_size, slot_at, LOOKING};
ghost use Rattle.lock_steps.specs.Going.{Gone, Received};

use duties::device::receive;
use memory::layout::{SHARE, STATION};
use memory::rows::TaskRow;
use steps::station::{go, wait_with};

pub mod owner; // owner.rt: the owner of the lock
pub mod wait; // wait.rt: a worker until it owns the lock or has a task

// The worker with this share goes to a place.
fn go_to(own: &mut [u64], place: u64, number: u64)
    requires { length own.old ≡ share_size }
    ensures { Gone own.old own.new place number }
{
    go(&mut own[..STATION], place, number);
}

// It waits with a ticket, whose slot it notes.
fn wait_at(own: &mut [u64], ticket: u64, slot: u64)
    requires { length own.old ≡ share_size }
    ensures gone { Gone own.old own.new LOOKING ticket }
    ensures slot { get_or own.new slot_at 0 ≡ slot }
{
    wait_with(&mut own[..STATION], ticket, slot);
}

// It receives a task at a time, and goes to a place that speaks of nothing.
fn receive_to(rows: &mut [TaskRow], own: &mut [u64], task: u64, w: u64, time: u64, place: u64)
    requires { (task < length rows.old) × (length own.old ≡ share_size) }
    ensures { Received rows.old own.old rows.new own.new task w time place }
{
    receive(rows, &mut own[STATION..SHARE], task, w, time);
    go_to(own, place, 0);
}
