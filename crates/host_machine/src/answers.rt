//! The number of each answer: 0 or more is an answer, less is a refusal.

ghost use Rattle.std.specs.Prelude.{◌≡◌, pos};
ghost use Rattle.host_machine.specs.Answers as spec;

use chan_events::reply::Reply;
use chan_model::answer::ConditionCode;
use chan_model::fault::Fault;
use channel_config::config::{ConfigFault, ConfigRule};
use channel_subsystem::host_fault::HostFault;
use storage_keys::StorageFault;

/// There is no memory.
pub const NO_MEMORY: i32 = -1;

/// The call is not for this stage: a machine is set up before it starts, and performs events after that.
pub const AT_OTHER_STAGE: i32 = -4;

/// A number or a buffer that the call does not take.
pub const BAD_ARGUMENT: i32 = -5;

/// Storage is not of as many bytes as the machine was started with, or there are keys, but not one for each block.
pub const OTHER_SIZE: i32 = -7;

/// The numbers of events are used up.
pub const NUMBERS_USED_UP: i32 = -8;

/// The call names a subchannel that is not configured.
pub const NO_SUCH_SUBCHANNEL: i32 = -18;

/// The call names a unit that is not configured.
pub const NO_SUCH_UNIT: i32 = -20;

/// The number of a condition code (SA22-7832, chapter 14).
pub fn code_number(code: ConditionCode) -> i32
    ensures { result ≡ pos (spec.code_number code) }
{
    match code {
        ConditionCode::Zero => 0,
        ConditionCode::One => 1,
        ConditionCode::Two => 2,
        ConditionCode::Three => 3,
    }
}

/// Whether a signal that was met was taken: 1, else 0.
fn taken_number(taken: bool) -> i32
    ensures { result ≡ pos (spec.taken_number taken) }
{
    if taken { 1 } else { 0 }
}

/// The number of what an accepted event answers: the condition code of an instruction (0 where it sets none); what was done for a
/// subchannel (0 nothing was due, 1 a program was offered, 2 a Reset was sent, 3 a Halt was sent, 4 status was made pending); 1 where
/// a signal that was met was taken, 0 where it was not; 0 of all else.
pub fn reply_number<B: Drop, U: Drop, D: Drop>(reply: &Reply<B, U, D>) -> i32
    ensures { result ≡ pos (spec.reply_number reply.now) }
{
    match reply {
        Reply::Done | Reply::Shown { .. } | Reply::Paths { .. } | Reply::Idle => 0,
        Reply::Code(answer) | Reply::Status { answer, .. } => code_number(answer.code()),
        Reply::Interruption(None) | Reply::ChannelReport(Some(_)) => 0,
        Reply::Interruption(Some(_)) | Reply::ChannelReport(None) => 1,
        Reply::PathReset(code) => code_number(*code),
        Reply::Offered { .. } => 1,
        Reply::ResetSent { .. } => 2,
        Reply::HaltSent { .. } => 3,
        Reply::Pending => 4,
        Reply::Up { taken, .. } | Reply::Down { taken, .. } => taken_number(*taken),
    }
}

/// The number of a refusal of the machine. A program interruption is less than -256 by its code.
pub fn fault_number(fault: Fault) -> i32
    ensures { result ≡ spec.below (spec.fault_size fault) }
{
    match fault {
        Fault::NoMemory => NO_MEMORY,
        Fault::WireFull => -16,
        Fault::NotSent => -17,
        Fault::NoSuchSubchannel => NO_SUCH_SUBCHANNEL,
        Fault::NoSuchPath => -19,
        Fault::NoSuchUnit => NO_SUCH_UNIT,
        Fault::NotNow => -21,
        Fault::ConfigBad(_) => -0x200,
        Fault::ScriptBad(_, _) => -0x300,
        Fault::Storage(StorageFault::Protection) => -0x104,
        Fault::Storage(StorageFault::Addressing) => -0x105,
        Fault::Storage(StorageFault::Specification) => -0x106,
        Fault::Operand => -0x115,
    }
}

/// The number of a refusal.
pub fn refusal_number(fault: HostFault) -> i32
    ensures { result ≡ spec.below (spec.refusal_size fault) }
{
    match fault {
        HostFault::OtherSize => OTHER_SIZE,
        HostFault::NumbersUsedUp => NUMBERS_USED_UP,
        HostFault::NoMemory => NO_MEMORY,
        HostFault::Refused(fault) => fault_number(fault),
    }
}

/// The number of a rule of configurations that is broken.
fn rule_number(rule: ConfigRule) -> i32
    ensures { result ≡ spec.below (spec.rule_size rule) }
{
    match rule {
        ConfigRule::StorageSize => -0x201,
        ConfigRule::ChannelPath => -0x202,
        ConfigRule::UnitNumber => -0x203,
        ConfigRule::UnitOfSubchannel => -0x204,
        ConfigRule::PathsOfSubchannel => -0x205,
        ConfigRule::SharedUnit => -0x206,
        ConfigRule::SubchannelName => -0x207,
        ConfigRule::Sets => -0x208,
    }
}

/// The number of what a line of a configuration came to: 0 where it was taken.
pub fn config_number(outcome: Result<(), ConfigFault>) -> i32
    ensures { result ≡ spec.config_number outcome }
{
    match outcome {
        Ok(()) => 0,
        Err(ConfigFault::NoMemory) => NO_MEMORY,
        Err(ConfigFault::Rule(rule)) => rule_number(rule),
    }
}
