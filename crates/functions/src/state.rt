//! A subchannel beside its wires, and the changes of its path-management-control word.

ghost use Rattle.std.specs.Prelude.{◌≡◌, ◌<◌, ◌^◌, None, Some, IfSome, length, map};
ghost use Rattle.std.specs.Borrow.{sem};
ghost use Rattle.zbits.specs.Layout.{word_of};
ghost use Rattle.scsw_irb.specs.ScswTable.{scsw_tables};
ghost use Rattle.schib_block.specs.SchibTable.{pmcw_tables};
ghost use Rattle.schib_block.specs.Reading.{pmcw_of_words};
ghost use Rattle.chan_model.specs.PathSets.{all_paths, is_member};
ghost use Rattle.subchannel_model.specs.Conditions.{found_operational};
ghost use Rattle.subchannel_model.specs.Modify.{placed};
ghost use Rattle.subchannel_model.specs.Opening.{opening_subchannel};
ghost use Rattle.subchannel_model.specs.Losing.{available_pmcw};
ghost use Rattle.subchannel_model.specs.Clear.{cleared_pmcw};
ghost use Rattle.subchannel_model.specs.SystemReset.{pmcw_reset};
ghost use Rattle.subchannel_model.specs.Start.{started_pmcw};
ghost use Rattle.subchannel_model.specs.Store.{available_paths, installed_paths, pmcw_of};
ghost use Rattle.subchannel_model.specs.Accept.{with_path_used};
ghost use Rattle.functions.specs.Unwired as spec;
ghost use Rattle.functions.specs.Unwired.{disabled, rest_in, unwired_sub, with_pmcw, with_state};
ghost use Rattle.functions.specs.Lending.{LendsRest, LendsScsw};

use crate::block;
use crate::rest::Rest;
use chan_model::names::Path;
use chan_model::paths::{PathSet, mask_of_path};
use channel_config::parts::SubchannelSetup;
use orb_block::Orb;
use schib_block::words::PmcwWords;
use scsw_irb::words::ScswWords;
use std::marker::Model;
use subchannel_model::state::{PmcwState, SubchannelState};

/// A subchannel beside its wires. Of the paths that are not installed, which the words say nothing of, `up` has what was last
/// shown.
#[derive(Drop)]
pub struct PackedState {
    setup: SubchannelSetup,
    pmcw: PmcwWords,
    scsw: ScswWords,
    up: PathSet,
    rest: Rest,
}

impl Model for PackedState {
    ghost use Rattle.functions.specs.Unwired.{Unwired};

    ghost Value = { Unwired };

    ghost use Rattle.std.specs.Prelude.{◌≡◌};
    ghost use Rattle.subchannel_model.specs.Store.{pmcw_of};
    ghost use Rattle.functions.specs.Unwired.{bare, unwired_of};

    ghost view = { λ s. unwired_of s.setup s.pmcw s.scsw s.up s.rest };

    ghost invariant = { λ s. s.pmcw ≡ pmcw_of (bare s.setup s.pmcw s.scsw s.up s.rest) };
}

impl PackedState {
    /// The subchannel of a set-up in this state.
    pub fn of(setup: SubchannelSetup, state: SubchannelState) -> PackedState
        ensures { result ≡ record { setup = setup; state = state } }
    {
        let word = block::pmcw_of(&setup, &state.pmcw);
        is_whole(&state.pmcw);
        PackedState {
            setup,
            pmcw: PmcwWords::of(word),
            scsw: ScswWords::of(state.scsw),
            up: state.pmcw.available,
            rest: Rest {
                serials: state.serials,
                drawn: state.drawn,
                starts: state.starts,
                waiting: state.waiting,
                begun: state.begun,
                suspended: state.suspended,
                hold: state.hold,
                offered: state.offered,
                last_path: state.last_path,
                dedicated: state.dedicated,
            },
        }
    }

    /// The same subchannel; it takes no memory.
    pub fn copy(&self) -> PackedState
        ensures { result ≡ self.now }
    {
        PackedState {
            setup: self.setup.copy(),
            pmcw: self.pmcw,
            scsw: self.scsw,
            up: self.up,
            rest: self.rest,
        }
    }

    /// What does not change of it.
    pub fn setup(&self) -> &SubchannelSetup
        ensures { result.now ≡ self.now.setup }
    {
        &self.setup
    }

    /// The path-management-control word.
    pub fn pmcw(&self) -> &PmcwWords
        ensures { result.now ≡ pmcw_of (unwired_sub self.now) }
    {
        &self.pmcw
    }

    /// The words of the path-management-control word, as the block has them.
    pub fn pmcw_words(&self) -> &[u32; 7]
        ensures { result.now ≡ map word_of (pmcw_tables (pmcw_of (unwired_sub self.now))) }
    {
        self.pmcw.words()
    }

    /// The words of the subchannel-status word, as the block has them.
    pub fn scsw_words(&self) -> &[u32; 3]
        ensures { result.now ≡ map word_of (scsw_tables self.now.state.scsw) }
    {
        self.scsw.words()
    }

    /// The interruption parameter.
    pub fn parameter(&self) -> u32
        ensures { result ≡ self.now.state.pmcw.parameter }
    {
        self.pmcw.parameter()
    }

    /// ISC: the interruption subclass, 0 to 7.
    pub fn subclass(&self) -> u8
        ensures value { result ≡ self.now.state.pmcw.subclass }
        ensures bound { result < 8 }
    {
        self.pmcw.subclass()
    }

    /// E: the subchannel is enabled.
    pub fn is_enabled(&self) -> bool
        ensures { result ≡ self.now.state.pmcw.enabled }
    {
        self.pmcw.is_enabled()
    }

    /// D: programs may be in multipath mode.
    pub fn is_multipath(&self) -> bool
        ensures { result ≡ self.now.state.pmcw.multipath }
    {
        self.pmcw.is_multipath()
    }

    /// LPM: the paths that a program may use.
    pub fn logical(&self) -> PathSet
        ensures { result ≡ self.now.state.pmcw.logical }
    {
        PathSet::of_mask(self.pmcw.logical())
    }

    /// PNOM: the paths that were found not operational.
    pub fn not_operational(&self) -> PathSet
        ensures { result ≡ self.now.state.pmcw.not_operational }
    {
        PathSet::of_mask(self.pmcw.not_operational())
    }

    /// LPUM: the path that was last used, as a mask.
    pub fn last_used_mask(&self) -> u8
        ensures { result ≡ (pmcw_of (unwired_sub self.now)).last_used }
    {
        self.pmcw.last_used()
    }

    /// LPUM: the path that was last used.
    pub fn last_used(&self) -> Option<Path>
        ensures { result ≡ self.now.state.pmcw.last_used }
    {
        path_of_mask(self.pmcw.last_used())
    }

    /// PIM: the paths that are installed.
    pub fn installed(&self) -> PathSet
        ensures { result ≡ installed_paths (unwired_sub self.now) }
    {
        PathSet::of_mask(self.pmcw.installed())
    }

    /// POM: the paths that are operational.
    pub fn operational(&self) -> PathSet
        ensures { result ≡ self.now.state.pmcw.operational }
    {
        PathSet::of_mask(self.pmcw.operational())
    }

    /// The paths that are not down. Of a path that is not installed it says what was last shown.
    pub fn up(&self) -> PathSet
        ensures { result ≡ self.now.state.pmcw.available }
    {
        self.up
    }

    /// PAM: the installed paths that are not down.
    pub fn available(&self) -> PathSet
        ensures { result ≡ available_paths (unwired_sub self.now) }
    {
        PathSet::of_mask(self.pmcw.available())
    }

    /// The status word.
    pub fn scsw(&self) -> &ScswWords
        ensures { result.now ≡ self.now.state.scsw }
    {
        &self.scsw
    }

    /// The status word, to be changed.
    pub fn scsw_mut(&mut self) -> &mut ScswWords
        ensures* lends { sem 𝓛 (LendsScsw self.entry result) }
        ensures value { result.now ≡ self.old.state.scsw }
    {
        &mut self.scsw
    }

    /// What is beside the words.
    pub fn rest(&self) -> &Rest
        ensures { result.now ≡ rest_in self.now.state }
    {
        &self.rest
    }

    /// What is beside the words, to be changed.
    pub fn rest_mut(&mut self) -> &mut Rest
        ensures* lends { sem 𝓛 (LendsRest self.entry result) }
        ensures value { result.now ≡ rest_in self.old.state }
    {
        &mut self.rest
    }

    /// MODIFY SUBCHANNEL: what it takes of a given word, whatever the bits there that are always zero here. The concurrent-sense
    /// bit is kept where the set-up says so.
    pub fn modify(&mut self, given: &[u32; 7])
        ensures { self.new ≡ with_state self.old (placed self.old.setup.concurrent_sense self.old.state (pmcw_of_words given.now)) }
    {
        let takes_sense = self.setup.concurrent_sense.is_kept();
        self.pmcw.modify(given, takes_sense);
    }

    /// START SUBCHANNEL: the interruption parameter and LPM of the ORB, and PNOM is zero.
    pub fn start_paths(&mut self, orb: &Orb)
        ensures { self.new ≡ with_pmcw self.old (started_pmcw self.old.state.pmcw orb.now) }
    {
        self.set_parameter(orb.parameter);
        self.set_logical(PathSet::of_mask(orb.paths));
        self.find_operational();
    }

    /// HALT SUBCHANNEL, RESUME SUBCHANNEL: PNOM is zero.
    pub fn find_operational(&mut self)
        ensures { self.new ≡ with_pmcw self.old (found_operational self.old.state.pmcw) }
    {
        self.set_not_operational(PathSet::none());
    }

    /// CLEAR SUBCHANNEL: PNOM and LPUM are zero, POM is all ones.
    pub fn clear_paths(&mut self)
        ensures { self.new ≡ with_pmcw self.old (cleared_pmcw self.old.state.pmcw) }
    {
        self.find_operational();
        self.forget_last_used();
        self.restore_operational();
    }

    /// A program is accepted on a path: LPUM shows it, and POM that it is operational.
    pub fn use_path(&mut self, path: Path)
        ensures { self.new ≡ with_pmcw self.old (with_path_used self.old.state.pmcw path) }
    {
        let mut operational = self.operational();
        operational.add(path);
        self.mark_last_used(path);
        self.set_operational(operational);
    }

    /// POM and PNOM, as paths are found not operational.
    pub fn mark_paths(&mut self, operational: PathSet, not_operational: PathSet)
        ensures { self.new ≡ with_pmcw self.old (record self.old.state.pmcw { operational = operational; not_operational = not_operational }) }
    {
        self.set_operational(operational);
        self.set_not_operational(not_operational);
    }

    /// LPUM: a path is used last.
    pub fn mark_last_used(&mut self, path: Path)
        ensures { self.new ≡ with_pmcw self.old (record self.old.state.pmcw { last_used = Some path }) }
    {
        is_path(Some(path));
        self.pmcw.set_last_used(mask_of_path(Some(path)));
    }

    /// PAM shows whether a path is up, if it is installed.
    pub fn show_path(&mut self, path: Path, is_up: bool)
        ensures { self.new ≡ with_pmcw self.old (available_pmcw self.old.state.pmcw path is_up) }
    {
        self.up.set(path, is_up);
        let installed = PathSet::of_mask(self.pmcw.installed());
        self.pmcw
            .set_available(installed.intersection(&self.up).mask());
    }

    /// A reset of the channel subsystem. A path that is down stays so.
    pub fn reset_paths(&mut self)
        ensures { self.new ≡ with_pmcw self.old (pmcw_reset self.old.state.pmcw) }
    {
        self.disable();
        self.find_operational();
        self.forget_last_used();
    }

    fn set_parameter(&mut self, parameter: u32)
        ensures { self.new ≡ with_pmcw self.old (record self.old.state.pmcw { parameter = parameter }) }
    {
        self.pmcw.set_parameter(parameter);
    }

    fn set_logical(&mut self, set: PathSet)
        ensures { self.new ≡ with_pmcw self.old (record self.old.state.pmcw { logical = set }) }
    {
        self.pmcw.set_logical(set.mask());
    }

    fn set_not_operational(&mut self, set: PathSet)
        ensures { self.new ≡ with_pmcw self.old (record self.old.state.pmcw { not_operational = set }) }
    {
        self.pmcw.set_not_operational(set.mask());
    }

    fn set_operational(&mut self, set: PathSet)
        ensures { self.new ≡ with_pmcw self.old (record self.old.state.pmcw { operational = set }) }
    {
        self.pmcw.set_operational(set.mask());
    }

    fn restore_operational(&mut self)
        ensures { self.new ≡ with_pmcw self.old (record self.old.state.pmcw { operational = all_paths }) }
    {
        self.set_operational(PathSet::all());
    }

    fn forget_last_used(&mut self)
        ensures { self.new ≡ with_pmcw self.old (record self.old.state.pmcw { last_used = None }) }
    {
        self.pmcw.set_last_used(0);
    }

    /// All that MODIFY SUBCHANNEL may take is zero, but for LPM and POM, which are all ones.
    fn disable(&mut self)
        ensures { self.new ≡ with_pmcw self.old (disabled self.old.state.pmcw) }
    {
        self.pmcw
            .modify(&[0, 0, 0xFF00_0000, 0x0000_FF00, 0, 0, 0], true);
    }
}

/// The path of a mask that has one bit.
fn path_of_mask(mask: u8) -> Option<Path>
    ensures { result ≡ spec.path_of_mask mask }
{
    match mask {
        0x80 => Path::new(0),
        0x40 => Path::new(1),
        0x20 => Path::new(2),
        0x10 => Path::new(3),
        0x08 => Path::new(4),
        0x04 => Path::new(5),
        0x02 => Path::new(6),
        0x01 => Path::new(7),
        _ => None,
    }
}

/// A path is one of eight. A law, with nothing to do.
fn is_path(path: Option<Path>)
    ensures { IfSome path (λ p. p < 8) }
{
    if let Some(path) = path {
        let _index = path.index();
    }
}

/// A path is one of eight, and a set of paths says something of each of them. A law, with nothing to do.
fn is_whole(pmcw: &PmcwState)
    ensures logical { length pmcw.now.logical ≡ 8 }
    ensures not_operational { length pmcw.now.not_operational ≡ 8 }
    ensures operational { length pmcw.now.operational ≡ 8 }
    ensures available { length pmcw.now.available ≡ 8 }
    ensures path { IfSome pmcw.now.last_used (λ p. p < 8) }
{
    is_path(pmcw.last_used);
    are_eight(&pmcw.logical);
    are_eight(&pmcw.not_operational);
    are_eight(&pmcw.operational);
    are_eight(&pmcw.available);
}

/// A set of paths says something of each of the eight. A law, with nothing to do.
fn are_eight(set: &PathSet)
    ensures { length set.now ≡ 8 }
{
    let _mask = set.mask();
}
