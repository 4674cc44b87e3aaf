//! What the subsystem does of itself for a subchannel (own).

ghost use Rattle.std.specs.Prelude.{◌≡◌, ◌<◌, ◌+◌, ◌^◌, if◌then◌else◌, IfSome, Some, length, true};
ghost use Rattle.chan_model.specs.PathSets.{is_any};
ghost use Rattle.chan_model.specs.Lent.{plain_down};
ghost use Rattle.chan_model.specs.Signals.{map_sent};
ghost use Rattle.chan_model.specs.HoldTable.{outcome_of, offering, sending_reset};
ghost use Rattle.allegiance.specs.PathUse.{reachable_paths};
ghost use Rattle.subchannel_model.specs.Choosing as spec;
ghost use Rattle.functions.specs.Unwired.{with_state};
ghost use Rattle.chan_model.specs.declared.hold_state.HoldPhase.TheVariants as phase;

use crate::paths::{is_any_lost, is_any_reachable, path_use, return_paths, usable_paths};
use allegiance::path_use::PathUse;
use chan_model::hold_state::{HoldPhase, HoldState};
use chan_model::lent::PlainDown;
use chan_model::names::Path;
use chan_model::paths::PathSet;
use chan_model::signal::OnPath;
use functions::{PackedState, Subchannel};
use hold::Hold;
use lookup::engines::Served;
use scsw_irb::bits::{
    CLEAR_PENDING, HALT_PENDING, PATH_NOT_OPERATIONAL, RESUME_PENDING, START_PENDING,
};
use scsw_irb::words::ScswWords;
use subchannel_model::state::{Candidate, Chosen, Program, ProgramPosition};

/// The number of a Reset that was not sent yet.
fn unsent_reset(hold: &HoldState) -> Option<u64>
    ensures number { result ≡ spec.unsent_reset hold.now }
    ensures due { IfSome result (λ r. hold.now.phase ≡ phase.Reset r) }
{
    match (hold.phase, hold.reset_path) {
        (HoldPhase::Reset { number }, None) => Some(number),
        _ => None,
    }
}

fn is_away(phase: HoldPhase) -> bool
    ensures { result ≡ spec.is_away phase }
{
    matches!(phase, HoldPhase::Away { .. })
}

fn paths_unreset(subs: &Served<'_>, sub: &Subchannel) -> PathSet
    ensures { result ≡ spec.paths_unreset subs.now sub.now }
{
    if sub.state.scsw().any(HALT_PENDING) && is_away(sub.state.rest().hold.phase) {
        return_paths(sub)
    } else {
        usable_paths(subs, sub)
    }
}

/// The paths of which one is chosen: for a Reset each that is available, for a Halt of a program that is away those by which
/// the program may come back, and otherwise those that may be used and whose engines are free.
pub fn paths_to_choose(subs: &Served<'_>, sub: &Subchannel) -> PathSet
    ensures { result ≡ spec.paths_to_choose subs.now sub.now }
{
    match unsent_reset(&sub.state.rest().hold) {
        None => paths_unreset(subs, sub),
        Some(_) => sub.state.available(),
    }
}

fn starting(start: bool, waiting: Option<Program>) -> Option<Candidate>
    ensures { result ≡ spec.starting start waiting }
{
    match waiting {
        Some(program) if start => Some(Candidate {
            program,
            resumes: false,
        }),
        _ => None,
    }
}

fn resuming(resume: bool, suspended: Option<ProgramPosition>) -> Option<Candidate>
    ensures { result ≡ spec.resuming resume suspended }
{
    match suspended {
        Some(standing) if resume => Some(Candidate {
            program: standing.program,
            resumes: true,
        }),
        _ => None,
    }
}

/// The program that is to be offered.
fn candidate(state: &PackedState) -> Option<Candidate>
    ensures { result ≡ spec.candidate state.now.state }
{
    let rest = state.rest();
    match starting(state.scsw().any(START_PENDING), rest.waiting) {
        Some(candidate) => Some(candidate),
        None => resuming(state.scsw().any(RESUME_PENDING), rest.suspended),
    }
}

/// The Reset that is due, where there is a path for it.
fn reset_chosen(hold: &HoldState, choice: &Option<Path>) -> Option<Chosen>
    ensures chosen { result ≡ spec.reset_chosen (spec.unsent_reset hold.now) choice.now }
    ensures fits { IfSome result (λ c. spec.IsFitFor c hold.now) }
{
    let number = unsent_reset(hold)?;
    let path = (*choice)?;
    Some(Chosen::Resets { number, path })
}

/// A clear that is pending, where the Reset that is due has no path.
fn clear_chosen(hold: &HoldState, pending: bool) -> Option<Chosen>
    ensures chosen { result ≡ spec.clear_chosen (spec.unsent_reset hold.now) pending }
    ensures fits { IfSome result (λ c. spec.IsFitFor c hold.now) }
{
    unsent_reset(hold)?;
    if pending {
        Some(Chosen::PerformsClear)
    } else {
        None
    }
}

/// A halt that is pending.
fn halt_chosen(pending: bool, hold: &HoldState, choice: &Option<Path>) -> Option<Chosen>
    ensures chosen { result ≡ spec.halt_chosen pending hold.now.phase choice.now }
    ensures fits { IfSome result (λ c. spec.IsFitFor c hold.now) }
{
    if !pending {
        return None;
    }
    match hold.phase {
        HoldPhase::Offer { .. } => None,
        HoldPhase::On { number, path, .. } => Some(Chosen::Halts { number, path }),
        HoldPhase::Away { number } => Some(Chosen::Halts {
            number,
            path: (*choice)?,
        }),
        HoldPhase::Free | HoldPhase::Letting { .. } | HoldPhase::Reset { .. } => Some(
            Chosen::PerformsHalt,
        ),
    }
}

/// A program that is to be offered, and where a path is within reach or none.
fn offer_chosen(
    sub: &Subchannel,
    candidate: Option<Candidate>,
    choice: &Option<Path>,
) -> Option<Chosen>
    ensures chosen { result ≡ spec.offer_chosen sub.now.state.hold.phase candidate (is_any (reachable_paths (spec.path_use sub.now))) choice.now }
    ensures fits { IfSome result (λ c. spec.IsFitFor c sub.now.state.hold) }
{
    let candidate = candidate?;
    match (sub.state.rest().hold.phase, *choice) {
        (HoldPhase::Free, Some(path)) => Some(Chosen::Offers { candidate, path }),
        (HoldPhase::Free | HoldPhase::Reset { .. }, _) if !is_any_reachable(sub) => Some(
            Chosen::FindsNoPath,
        ),
        _ => None,
    }
}

/// What is done, where this path was chosen of those of `paths_to_choose`: the first that applies of a Reset that is due, a
/// clear without a path for its Reset, a halt, and an offer.
pub fn chosen(sub: &Subchannel, choice: Option<Path>) -> Chosen
    ensures chosen { result ≡ spec.chosen sub.now choice }
    ensures fits { spec.IsFitFor result sub.now.state.hold }
{
    let state = &sub.state;
    let hold = &state.rest().hold;
    if let Some(chosen) = reset_chosen(hold, &choice) {
        return chosen;
    }
    if let Some(chosen) = clear_chosen(hold, state.scsw().any(CLEAR_PENDING)) {
        return chosen;
    }
    if let Some(chosen) = halt_chosen(state.scsw().any(HALT_PENDING), hold, &choice) {
        return chosen;
    }
    match offer_chosen(sub, candidate(state), &choice) {
        Some(chosen) => chosen,
        None => Chosen::Idle,
    }
}

/// Whether a program is to be offered, and neither a Reset that has a path nor a clear nor a halt comes before it.
fn looks_for_path(sub: &Subchannel, choice: &Option<Path>) -> bool
    ensures { result ≡ spec.looks_for_path sub.now.state choice.now }
{
    let state = &sub.state;
    let hold = &state.rest().hold;
    reset_chosen(hold, choice).is_none()
        && clear_chosen(hold, state.scsw().any(CLEAR_PENDING)).is_none()
        && !state.scsw().any(HALT_PENDING)
        && candidate(state).is_some()
}

/// N is set where there is such a path.
fn mark_scsw(scsw: &mut ScswWords, any: bool)
    ensures { scsw.new ≡ record scsw.old { path_not_operational = if any then true else scsw.old.path_not_operational } }
{
    if any {
        scsw.change(0, PATH_NOT_OPERATIONAL);
    }
}

/// Marks the paths that are found not operational by these masks, and shows whether there are any.
fn mark_state(state: &mut PackedState, used: PathUse)
    ensures { state.new ≡ with_state state.old (spec.marked_state state.old.state used true) }
{
    let mut used = used;
    let any = used.mark_lost();
    state.mark_paths(used.operational, used.not_operational);
    mark_scsw(state.scsw_mut(), any);
}

/// A set says something of each of the eight paths. A law, with nothing to do.
fn is_whole(set: &PathSet)
    ensures { length set.now ≡ 8 }
{
    let _mask = set.mask();
}

/// The sets of paths that are operational, and not operational, say something of each path. A law, with nothing to do.
fn has_each_path(sub: &Subchannel)
    ensures operational { length sub.now.state.pmcw.operational ≡ 8 }
    ensures not_operational { length sub.now.state.pmcw.not_operational ≡ 8 }
{
    is_whole(&sub.state.operational());
    is_whole(&sub.state.not_operational());
}

/// Where a program is to be offered, the paths that are found not operational are marked so, also where nothing comes of it.
/// `choice` is the one that `chosen` is asked with.
pub fn mark_lost_paths(sub: &mut Subchannel, choice: &Option<Path>)
    ensures { sub.new ≡ spec.marked_sub sub.old choice.now }
{
    if !is_any_lost(sub) {
        has_each_path(sub);
        return;
    }
    if looks_for_path(sub, choice) {
        let used = path_use(sub);
        mark_state(&mut sub.state, used);
    }
}

/// The Reset that is due is sent on a path; nothing is sent where there is none.
pub fn send_reset(state: &mut PackedState, path: Path) -> Option<OnPath<PlainDown>>
    ensures state { state.new ≡ with_state state.old (spec.reset_sent state.old.state path) }
    ensures sent { map_sent plain_down result ≡ (outcome_of (sending_reset state.old.state.hold state.old.state.hold.phase path)).sent }
{
    let rest = state.rest_mut();
    let mut hold = Hold::of(rest.hold);
    let reset = hold.send_reset(path);
    rest.hold = hold.state();
    rest.last_path = Some(path);
    reset
}

/// Halt pending is cleared.
fn tell_halt(scsw: &mut ScswWords)
    ensures { scsw.new ≡ spec.halt_sent_scsw scsw.old }
{
    scsw.change(HALT_PENDING, 0);
}

/// The program at work is told of a halt, which is no longer pending.
pub fn send_halt(state: &mut PackedState)
    ensures { state.new ≡ with_state state.old (spec.halt_sent state.old.state) }
{
    tell_halt(state.scsw_mut());
}

/// A program is offered on a path under a fresh number.
pub fn offer(state: &mut PackedState, program: &Program, path: Path) -> OnPath<PlainDown>
    requires drawn { state.old.state.drawn < 2 ^ 63 }
    requires free { state.old.state.hold.phase ≡ phase.Free }
    ensures state { state.new ≡ with_state state.old (spec.offered state.old.state program.now path) }
    ensures sent { map_sent plain_down (Some result) ≡ (offering state.old.state.hold (state.old.state.drawn + 1) path program.now.single_path).sent }
{
    let rest = state.rest_mut();
    rest.drawn += 1;
    let mut hold = Hold::of(rest.hold);
    let select = hold.offer(rest.drawn, path, program.single_path);
    rest.hold = hold.state();
    rest.offered = program.start;
    rest.last_path = Some(path);
    select
}
