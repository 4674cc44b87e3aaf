//! What is known of the channel paths, by their identifiers.

ghost use Rattle.std.specs.Prelude.{◌≡◌, ℕ, Bool, List};
ghost use Rattle.channel_config.specs.Setup as setup_spec;
ghost use Rattle.io_step.specs.GivenOperands as given_spec;
ghost use Rattle.machine_model.specs.OtherSteps as other_spec;
ghost use Rattle.machine_model.specs.OtherSteps.{LentWhole};
ghost use Rattle.machine_model.specs.State as state_spec;

use chan_events::event::OtherInstruction;
use io_step::{OtherByValue, PathTable};
use lookup::engines::Served;

/// Whether the path is among these.
pub fn has_chpid(chpids: &[u8], chpid: usize) -> bool
    ensures { result ≡ setup_spec.has_number chpids.now chpid }
{
    chpids.iter().any(|known| usize::from(*known) == chpid)
}

/// Of each channel path, whether it is one of these.
pub fn configured(chpids: &[u8]) -> PathTable
    ensures { result ≡ state_spec.configured_paths chpids.now 0x100 }
{
    let mut table = [false; 256];
    for chpid in 0..256 {
        table[chpid] = has_chpid(chpids, chpid);
    }
    table
}

/// Of each channel path, whether its engine serves a subchannel.
fn engaged(subs: &Served<'_>) -> PathTable
    ensures { result ≡ other_spec.engaged_chpids subs.now 0x100 }
{
    let mut table = [false; 256];
    for chpid in 0..256 {
        table[chpid] = subs.is_engaged(chpid as u8);
    }
    table
}

/// The same where the instruction asks for it, STORE CHANNEL PATH STATUS alone; else no channel path.
pub fn engaged_for(subs: &Served<'_>, instruction: OtherInstruction) -> PathTable
    ensures { (lent : LentWhole) (up : List Bool) (cpu : ℕ) → other_spec.other_result lent up result cpu instruction
        ≡ other_spec.other_result lent up (other_spec.engaged_chpids subs.now 0x100) cpu instruction }
{
    match instruction {
        OtherInstruction::Stcps { .. } => engaged(subs),
        _ => [false; 256],
    }
}

/// The same for an instruction with its operand by value.
pub fn engaged_by_value(subs: &Served<'_>, instruction: OtherByValue) -> PathTable
    ensures { (lent : LentWhole) (up : List Bool) (cpu address : ℕ) → other_spec.other_result lent up result cpu (given_spec.other_at instruction address)
        ≡ other_spec.other_result lent up (other_spec.engaged_chpids subs.now 0x100) cpu (given_spec.other_at instruction address) }
{
    match instruction {
        OtherByValue::Stcps => engaged(subs),
        OtherByValue::Tpi { .. } | OtherByValue::Stcrw => [false; 256],
    }
}
