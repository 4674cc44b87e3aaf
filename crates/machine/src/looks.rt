//! Looks between events: each is a function of the state, is no event, takes no memory and changes nothing.

ghost use Rattle.std.specs.Prelude.{◌≡◌, ◌<◌, ◌+◌, ◌==◌, ℕ, IfSome, IfNone, Some, None, length, option_map, slice_get, slice_index_or, false};
ghost use Rattle.zbits.specs.Bits.{bit_of};
ghost use Rattle.zbits.specs.Layout.{image_of};
ghost use Rattle.schib_block.specs.SchibTable.{schib_tables};
ghost use Rattle.scsw_irb.specs.ScswTable.{irb_tables};
ghost use Rattle.interruptions.specs.Requests.{has_request};
ghost use Rattle.subchannel_model.specs.Choosing.{any_engages};
ghost use Rattle.subchannel_model.specs.Store.{schib_of};
ghost use Rattle.subchannel_model.specs.Test.{irb_of};
ghost use Rattle.machine_model.specs.State.{State};
ghost use Rattle.machine_model.specs.State as state_spec;
ghost use Rattle.machine_model.specs.State.{lent, no_storage};

use crate::machine::Machine;
use chan_model::unit_state::UnitState;
use functions::Subchannel;
use lookup::engines::Served;
use schib_block::SCHIB_BYTES;
use scsw_irb::irb::IRB_BYTES;

/// A machine that can be looked at.
pub trait Looks: Sized {
    // The state that it is in.
    ghost state: { Self → State };

    /// The machine beside its storage.
    fn looked_at(&self) -> &Machine
        ensures { result.now ≡ lent (state self.now) no_storage };

    /// The index of the subchannel that a subsystem-identification word names, in the order of the configuration, from 0;
    /// None where it is not configured.
    fn index_named(&self, subchannel: u32) -> Option<usize>
        ensures index { result ≡ state_spec.index_of (state self.now) subchannel }
        ensures bound { IfSome result (λ index. index < length (state self.now).subs) };

    /// The interruption subclasses of which a request waits, a bit each: hexadecimal 80 is subclass 0, 01 is subclass 7. TEST
    /// PENDING INTERRUPTION with a mask that has one of them answers a request (SA22-7832, chapter 14).
    final fn requested_subclasses(&self) -> u8
        ensures { (subclass : ℕ) → subclass < 8 → (bit_of result (24 + subclass) == 1) ≡ has_request (state self.now).requests subclass }
    {
        self.looked_at().pending.subclasses()
    }

    /// How many channel reports wait, at most 16. STORE CHANNEL REPORT WORD takes the oldest (SA22-7832, chapter 17).
    final fn report_count(&self) -> usize
        ensures { result ≡ length (state self.now).reports.reports }
    {
        self.looked_at().reports.count()
    }

    /// The subchannel that a subsystem-identification word names, lent: `state.rest()` has its programs, its hold and its
    /// serials, `wires` the signals that wait on each path, `pmcw_words` and `scsw_words` its control blocks word by word. None
    /// where it is not configured.
    final fn subchannel(&self, subchannel: u32) -> Option<&Subchannel>
        ensures found { IfSome result (λ sub. state_spec.sub_of (state self.now) subchannel ≡ Some sub.now) }
        ensures none { IfNone result (state_spec.sub_of (state self.now) subchannel ≡ None) }
    {
        let index = self.index_named(subchannel)?;
        Some(&self.looked_at().subs[index])
    }

    /// The 52 bytes of the subchannel-information block that STORE SUBCHANNEL would store (SA22-7832, chapter 15). None where the
    /// subchannel is not configured.
    final fn schib(&self, subchannel: u32) -> Option<[u8; SCHIB_BYTES]>
        ensures { result ≡ option_map (λ sub. image_of (schib_tables (schib_of sub))) (state_spec.sub_of (state self.now) subchannel) }
    {
        match self.subchannel(subchannel) {
            Some(sub) => Some(sub.state.schib()),
            None => None,
        }
    }

    /// The 64 bytes of the interruption-response block that TEST SUBCHANNEL would store (SA22-7832, chapter 16), where its
    /// subchannel is enabled. None where the subchannel is not configured.
    final fn irb(&self, subchannel: u32) -> Option<[u8; IRB_BYTES]>
        ensures { result ≡ option_map (λ sub. image_of (irb_tables (irb_of sub.state))) (state_spec.sub_of (state self.now) subchannel) }
    {
        match self.subchannel(subchannel) {
            Some(sub) => Some(sub.state.irb()),
            None => None,
        }
    }

    /// What a unit remembers, lent: the program that holds it, its command at hand, and what each of its sides knows. None where
    /// it is not configured.
    final fn unit(&self, unit: u32) -> Option<&UnitState>
        ensures found { IfSome result (λ remembered. slice_get (state self.now).units «unit» ≡ Some remembered.now) }
        ensures none { IfNone result (slice_get (state self.now).units «unit» ≡ None) }
    {
        let unit = self.looked_at().units.get(unit as usize)?;
        Some(unit.state())
    }

    /// Whether the channel path of this identifier is configured and not down.
    final fn is_path_up(&self, chpid: u8) -> bool
        ensures { result ≡ slice_index_or (state self.now).up chpid false }
    {
        self.looked_at().up[usize::from(chpid)]
    }

    /// Whether the channel path of this identifier serves a subchannel, as STORE CHANNEL PATH STATUS tells it.
    final fn is_path_engaged(&self, chpid: u8) -> bool
        ensures { result ≡ any_engages (state self.now).subs chpid }
    {
        let machine = self.looked_at();
        Served::of(machine.subs.as_slice(), &machine.engines).is_engaged(chpid)
    }
}
