//! Looks at a machine that runs: each is no event, takes no memory and changes nothing.

ghost use Rattle.std.specs.Prelude.{◌≡◌, pos, length};
ghost use Rattle.host_machine.specs.Looks as spec;
ghost use Rattle.host_machine.specs.Looks.{AreRequests, SeesLast, Shows, ShowsBlock, ShowsSerials};
ghost use Rattle.host_machine.specs.Works as works;
ghost use Rattle.machine_model.specs.State.{serials_in, sub_of, unit_turn_of};

use crate::answers::{AT_OTHER_STAGE, NO_SUCH_SUBCHANNEL};
use crate::given::write_first;
use crate::host_machine::HostMachine;
use crate::running::Running;
use crate::seen::HostSeen;
use crate::works::HostWork;
use machine::looks::Looks;

/// A block is written into a room, where there is one.
fn show_block<const BYTES: usize>(block: &Option<[u8; BYTES]>, room: &mut [u8]) -> i32
    ensures { ShowsBlock block.now result room.old room.new }
{
    match block {
        Some(block) => {
            write_first(block, room);
            0
        }
        None => NO_SUCH_SUBCHANNEL,
    }
}

impl Running {
    /// What the last accepted event answered; nothing where the last event was refused and no other is kept.
    fn seen(&self) -> HostSeen
        ensures { SeesLast self.now.subsystem.kept result }
    {
        match self.subsystem().last_reply() {
            Some(reply) => HostSeen::of(reply.parts().0),
            None => HostSeen::none(),
        }
    }
}

impl HostMachine {
    /// The interruption subclasses of which a request waits: 0 to 255, of which hexadecimal 80 is subclass 0.
    pub fn requests(&self) -> i32
        ensures { Shows (λ r number. AreRequests r.subsystem.machine number) Unit self.now result }
    {
        match self {
            HostMachine::SettingUp(_) => AT_OTHER_STAGE,
            HostMachine::Runs(running) => i32::from(running.subsystem().requested_subclasses()),
        }
    }

    /// How many channel reports wait, at most 16.
    pub fn report_count(&self) -> i32
        ensures { Shows (λ r number. number ≡ pos (spec.at_most 16 (length r.subsystem.machine.reports.reports))) Unit self.now result }
    {
        match self {
            HostMachine::SettingUp(_) => AT_OTHER_STAGE,
            HostMachine::Runs(running) => at_most_16(running.subsystem().report_count()),
        }
    }

    /// The 52 bytes of the SCHIB that STORE SUBCHANNEL would store, as far as there is room.
    pub fn schib(&self, subchannel: u32, room: &mut [u8]) -> i32
        ensures { Shows (λ r number. ShowsBlock (spec.schib_at r.subsystem.machine subchannel) number room.old room.new) (room.new ≡ room.old) self.now result }
    {
        match self {
            HostMachine::SettingUp(_) => AT_OTHER_STAGE,
            HostMachine::Runs(running) => {
                show_block(&running.subsystem().schib(subchannel), room)
            }
        }
    }

    /// The 64 bytes of the IRB that TEST SUBCHANNEL would store where its subchannel is enabled, as far as there is room.
    pub fn irb(&self, subchannel: u32, room: &mut [u8]) -> i32
        ensures { Shows (λ r number. ShowsBlock (spec.irb_at r.subsystem.machine subchannel) number room.old room.new) (room.new ≡ room.old) self.now result }
    {
        match self {
            HostMachine::SettingUp(_) => AT_OTHER_STAGE,
            HostMachine::Runs(running) => show_block(&running.subsystem().irb(subchannel), room),
        }
    }

    /// How many statuses a subchannel has made, and how many were cleared.
    pub fn serials(&self, subchannel: u32, made: &mut u64, cleared: &mut u64) -> i32
        ensures { Shows (λ r number. ShowsSerials (serials_in (sub_of r.subsystem.machine subchannel)) number made.old cleared.old made.new cleared.new) ((made.new ≡ made.old) × (cleared.new ≡ cleared.old)) self.now result }
    {
        match self {
            HostMachine::SettingUp(_) => AT_OTHER_STAGE,
            HostMachine::Runs(running) => match running.subsystem().serials(subchannel) {
                None => NO_SUCH_SUBCHANNEL,
                Some(serials) => {
                    *made = serials.made;
                    *cleared = serials.cleared;
                    0
                }
            },
        }
    }

    /// A channel path, by its identifier: 0 not configured or down, 1 up, 3 up and serving a subchannel.
    pub fn path(&self, chpid: u8) -> i32
        ensures { Shows (λ r number. number ≡ pos (spec.path_at r.subsystem.machine chpid)) Unit self.now result }
    {
        match self {
            HostMachine::SettingUp(_) => AT_OTHER_STAGE,
            HostMachine::Runs(running) => {
                let subsystem = running.subsystem();
                path_number(
                    subsystem.is_path_up(chpid),
                    subsystem.is_path_engaged(chpid),
                )
            }
        }
    }

    /// What the last accepted event answered.
    pub fn seen(&self, seen: &mut HostSeen) -> i32
        ensures { Shows (λ r number. (number ≡ pos 0) × SeesLast r.subsystem.kept seen.new) (seen.new ≡ seen.old) self.now result }
    {
        match self {
            HostMachine::SettingUp(_) => AT_OTHER_STAGE,
            HostMachine::Runs(running) => {
                *seen = running.seen();
                0
            }
        }
    }

    /// What the device of a unit is asked for now, as `Running::work` has it.
    pub fn work(&self, unit: u32, work: &mut HostWork, room: &mut [u8]) -> i32
        ensures { Shows (λ r number. works.Asks (unit_turn_of r.subsystem.machine «unit») number work.new room.old room.new) ((work.new ≡ work.old) × (room.new ≡ room.old)) self.now result }
    {
        match self {
            HostMachine::SettingUp(_) => AT_OTHER_STAGE,
            HostMachine::Runs(running) => running.work(unit, work, room),
        }
    }
}

/// A count, of which 16 stand for all above.
fn at_most_16(count: usize) -> i32
    ensures { result ≡ pos (spec.at_most 16 count) }
{
    if count > 16 { 16 } else { count as i32 }
}

/// The number of a channel path.
fn path_number(up: bool, engaged: bool) -> i32
    ensures { result ≡ pos (spec.path_number up engaged) }
{
    match (up, engaged) {
        (false, _) => 0,
        (true, false) => 1,
        (true, true) => 3,
    }
}
