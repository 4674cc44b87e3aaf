//! Instructions with their operand by value, since a guest's operands stand at logical addresses, which its host alone can translate.

ghost use Rattle.std.specs.Prelude.{◌≡◌, ◌≢◌, ℕ, Err, true};
ghost use Rattle.channel_subsystem.specs.GivenSteps.{HasRoomSomewhere, IsGivenStep, IsOtherGivenStep, IsSomewhere};
ghost use Rattle.channel_subsystem.specs.declared.host_fault.HostFault.TheVariants as fault_spec;

use super::ChannelSubsystem;
use crate::host_fault::HostFault;
use crate::stepping::by_value::{keep_by_value, keep_other_by_value};
use crate::stepping::{make_room, make_way};
use chan_events::reply::PlainReply;
use chan_model::names::Cpu;
use io_step::{Answered, ByValue, OtherByValue};
use memory::{Allocator, Supply};
use path_select::PathChoice;
use run_laws::answers::codes;
use run_laws::states::{numbers, setups, steps};

impl<P: PathChoice + Drop> ChannelSubsystem<P> {
    /// A CPU executes an instruction on the subchannel that a subsystem-identification word names, with its operand by value: what
    /// is answered, and the block that is to be stored at the operand (the SCHIB of STORE SUBCHANNEL, 52 bytes, with code 0; the IRB
    /// of TEST SUBCHANNEL, 64 bytes, with codes 0 and 1). No storage is lent to it. Its entry has the operand at address 0. That the
    /// operand stands on its boundary, and where the CPU may fetch or store, is tested by the host. It is refused as `step` is, with
    /// `Fault::Operand` where the word names no set of subchannels or the contents of the operand are not allowed.
    pub fn execute_by_value(
        &mut self,
        cpu: Cpu,
        subchannel: u32,
        instruction: &ByValue,
    ) -> Result<Answered, HostFault>
        ensures stepped { IsGivenStep P.picks self.old cpu subchannel instruction.now result self.new }
        ensures somewhere { IsSomewhere instruction.now self.old.blocks cpu }
    {
        self.execute_by_value_with(
            &mut Allocator { refused: false },
            cpu,
            subchannel,
            instruction,
        )
    }

    /// The same, with room for its entry from a supply. It is refused `NoMemory` only where the supply refuses that.
    pub fn execute_by_value_with<S: Supply>(
        &mut self,
        supply: &mut S,
        cpu: Cpu,
        subchannel: u32,
        instruction: &ByValue,
    ) -> Result<Answered, HostFault>
        ensures stepped { IsGivenStep P.picks self.old cpu subchannel instruction.now result self.new }
        ensures somewhere { IsSomewhere instruction.now self.old.blocks cpu }
        ensures unrefused { result ≢ Err fault_spec.NoMemory → S.refused supply.new ≡ S.refused supply.old }
        ensures memory { result ≡ Err fault_spec.NoMemory → S.refused supply.new ≡ true }
    {
        numbers();
        setups();
        steps();
        codes();
        self.has_operand_somewhere(instruction);
        make_way(self.keeping, &mut self.log);
        if let Err(fault) = make_room(supply, self.count, &mut self.log) {
            return Err(fault);
        }
        match keep_by_value(
            &mut self.machine,
            &self.indices,
            cpu,
            subchannel,
            instruction,
            &mut self.log,
        ) {
            Ok(answered) => {
                self.count += 1;
                Ok(answered)
            }
            Err(fault) => Err(HostFault::Refused(fault)),
        }
    }

    /// A CPU executes an instruction that names no subchannel, with its operand by value: the reply tells all that is to be stored
    /// at the operand (`Interruption` the code, whose `words` are the three words that an interruption stores, of which TEST PENDING
    /// INTERRUPTION stores two at an address that is not 0; `ChannelReport` the report word, zero where none waits; `Paths` the 32
    /// bytes). It is refused as `step` is, but never by the machine.
    pub fn execute_other_by_value(
        &mut self,
        cpu: Cpu,
        instruction: OtherByValue,
    ) -> Result<PlainReply, HostFault>
        ensures stepped { IsOtherGivenStep P.picks self.old cpu instruction result self.new }
        ensures somewhere { HasRoomSomewhere instruction self.old.blocks cpu }
    {
        self.execute_other_by_value_with(&mut Allocator { refused: false }, cpu, instruction)
    }

    /// The same, with room for its entry from a supply. It is refused `NoMemory` only where the supply refuses that.
    pub fn execute_other_by_value_with<S: Supply>(
        &mut self,
        supply: &mut S,
        cpu: Cpu,
        instruction: OtherByValue,
    ) -> Result<PlainReply, HostFault>
        ensures stepped { IsOtherGivenStep P.picks self.old cpu instruction result self.new }
        ensures somewhere { HasRoomSomewhere instruction self.old.blocks cpu }
        ensures unrefused { result ≢ Err fault_spec.NoMemory → S.refused supply.new ≡ S.refused supply.old }
        ensures memory { result ≡ Err fault_spec.NoMemory → S.refused supply.new ≡ true }
    {
        numbers();
        setups();
        steps();
        codes();
        self.has_room_somewhere(instruction);
        make_way(self.keeping, &mut self.log);
        if let Err(fault) = make_room(supply, self.count, &mut self.log) {
            return Err(fault);
        }
        let reply = keep_other_by_value(
            &mut self.machine,
            &self.indices,
            cpu,
            instruction,
            &mut self.log,
        );
        self.count += 1;
        Ok(reply)
    }

    /// There is storage of its size that has the operand of an instruction.
    fn has_operand_somewhere(&self, instruction: &ByValue)
        ensures { (cpu : ℕ) → IsSomewhere instruction.now self.now.blocks cpu }
    {
        let _ = &self.log;
        instruction.is_somewhere();
    }

    /// There is storage of its size that has room for what an instruction stores.
    fn has_room_somewhere(&self, instruction: OtherByValue)
        ensures { (cpu : ℕ) → HasRoomSomewhere instruction self.now.blocks cpu }
    {
        let _ = &self.log;
        instruction.is_somewhere();
    }
}
