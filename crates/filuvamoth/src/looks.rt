//! Looks: no event, and nothing changes.

ghost use Rattle.filuvamoth.specs.Calls.{LooksAt, WhereGood};
ghost use Rattle.host_machine.specs.Looks.{AreRequests, SeesLast, Shows, ShowsBlock, ShowsSerials};
ghost use Rattle.host_machine.specs.Looks as spec;
ghost use Rattle.machine_model.specs.State.{serials_in, sub_of};
ghost use Rattle.std.specs.Prelude.{◌≡◌, length, nat_le, pos};

use crate::calls::CLOSED;
use crate::handle::Handle;
use host_machine::answers::BAD_ARGUMENT;
use host_machine::seen::HostSeen;
use std::alloc::Global;

/// The interruption subclasses of which a request waits: 0 to 255, of which hexadecimal 80 is subclass 0.
#[unsafe(no_mangle)]
pub extern "C" fn fm_requests(alloc: Global, handle: &mut Handle) -> i32
    ensures { LooksAt (λ machine number. Shows (λ r answered. AreRequests r.subsystem.machine answered) (Unit {0}) machine number) (Unit {0}) handle.old.held.inside result handle.new.held.inside }
{
    match handle.take(alloc) {
        None => CLOSED,
        Some(inside) => {
            let number = inside.requests();
            handle.put(inside);
            number
        }
    }
}

/// How many channel reports wait, at most 16.
#[unsafe(no_mangle)]
pub extern "C" fn fm_report_count(alloc: Global, handle: &mut Handle) -> i32
    ensures { LooksAt (λ machine number. Shows (λ r answered. answered ≡ pos (spec.at_most 16 (length r.subsystem.machine.reports.reports))) (Unit {0}) machine number) (Unit {0}) handle.old.held.inside result handle.new.held.inside }
{
    match handle.take(alloc) {
        None => CLOSED,
        Some(inside) => {
            let number = inside.report_count();
            handle.put(inside);
            number
        }
    }
}

/// The SCHIB that STORE SUBCHANNEL would store, as far as there is room for its 52 bytes.
#[unsafe(no_mangle)]
pub extern "C" fn fm_schib(
    alloc: Global,
    handle: &mut Handle,
    subchannel: u32,
    room: &mut [u8],
) -> i32
    ensures { LooksAt (λ machine number. Shows (λ r answered. ShowsBlock (spec.schib_at r.subsystem.machine subchannel) answered room.old room.new) (room.new ≡ room.old) machine number)
        (room.new ≡ room.old) handle.old.held.inside result handle.new.held.inside }
{
    match handle.take(alloc) {
        None => CLOSED,
        Some(inside) => {
            let number = inside.schib(subchannel, room);
            handle.put(inside);
            number
        }
    }
}

/// The IRB that TEST SUBCHANNEL would store where the subchannel is enabled, as far as there is room for its 64 bytes.
#[unsafe(no_mangle)]
pub extern "C" fn fm_irb(
    alloc: Global,
    handle: &mut Handle,
    subchannel: u32,
    room: &mut [u8],
) -> i32
    ensures { LooksAt (λ machine number. Shows (λ r answered. ShowsBlock (spec.irb_at r.subsystem.machine subchannel) answered room.old room.new) (room.new ≡ room.old) machine number)
        (room.new ≡ room.old) handle.old.held.inside result handle.new.held.inside }
{
    match handle.take(alloc) {
        None => CLOSED,
        Some(inside) => {
            let number = inside.irb(subchannel, room);
            handle.put(inside);
            number
        }
    }
}

/// How many statuses a subchannel has made, and how many were cleared.
#[unsafe(no_mangle)]
pub extern "C" fn fm_serials(
    alloc: Global,
    handle: &mut Handle,
    subchannel: u32,
    made: &mut u64,
    cleared: &mut u64,
) -> i32
    ensures { LooksAt (λ machine number. Shows (λ r answered. ShowsSerials (serials_in (sub_of r.subsystem.machine subchannel)) answered made.old cleared.old made.new cleared.new)
        ((made.new ≡ made.old) × (cleared.new ≡ cleared.old)) machine number) ((made.new ≡ made.old) × (cleared.new ≡ cleared.old)) handle.old.held.inside result handle.new.held.inside }
{
    match handle.take(alloc) {
        None => CLOSED,
        Some(inside) => {
            let number = inside.serials(subchannel, made, cleared);
            handle.put(inside);
            number
        }
    }
}

/// A channel path, by its identifier: 0 not configured or down, 1 up, 3 up and serving a subchannel.
#[unsafe(no_mangle)]
pub extern "C" fn fm_path(alloc: Global, handle: &mut Handle, chpid: u32) -> i32
    ensures { WhereGood (nat_le chpid 0xFF) (LooksAt (λ machine number. Shows (λ r answered. answered ≡ pos (spec.path_at r.subsystem.machine chpid)) (Unit {0}) machine number) (Unit {0})
        handle.old.held.inside result handle.new.held.inside) (Unit {0}) handle.old.held.inside result handle.new.held.inside }
{
    if chpid > 0xFF {
        return BAD_ARGUMENT;
    }
    match handle.take(alloc) {
        None => CLOSED,
        Some(inside) => {
            let number = inside.path(chpid as u8);
            handle.put(inside);
            number
        }
    }
}

/// What the last accepted event answered beyond its number; where that was refused and no history is kept, nothing.
#[unsafe(no_mangle)]
pub extern "C" fn fm_seen(alloc: Global, handle: &mut Handle, seen: &mut HostSeen) -> i32
    ensures { LooksAt (λ machine number. Shows (λ r answered. (answered ≡ pos 0) × SeesLast r.subsystem.kept seen.new) (seen.new ≡ seen.old) machine number)
        (seen.new ≡ seen.old) handle.old.held.inside result handle.new.held.inside }
{
    match handle.take(alloc) {
        None => CLOSED,
        Some(inside) => {
            let number = inside.seen(seen);
            handle.put(inside);
            number
        }
    }
}
