//! What an event does at one subchannel.

ghost use Rattle.std.specs.Prelude.{◌≡◌, ◌<◌, ◌≤◌, ◌^◌, Bool, Err, IfErr, List, OnErr, OnOk, Option, Some, false, length, nat_lt, true};
ghost use Rattle.signal_step.specs.Giving as giving_spec;
ghost use Rattle.machine_model.specs.ChooseSteps as choose_spec;
ghost use Rattle.subchannel_model.specs.Sending as sending_spec;
ghost use Rattle.machine_model.specs.UpSteps as up_spec;
ghost use Rattle.machine_model.specs.DownSteps as down_spec;
ghost use Rattle.machine_model.specs.ReportSteps as report_spec;
ghost use Rattle.machine_model.specs.Results as result_spec;
ghost use Rattle.control_units.specs.declared.Member.{Member};
ghost use Rattle.subchannel.specs.Answering as answering_spec;
ghost use Rattle.chan_model.specs.Lent.{lent_down, lent_up};
ghost use Rattle.chan_model.specs.Signals as signals;
ghost use Rattle.chan_model.specs.declared.signal.OnPath as on_path;
ghost use Rattle.std.specs.Bool.{OnFalse};
ghost use Rattle.subchannel_model.specs.Choosing as choosing_spec;
ghost use Rattle.subchannel_model.specs.Taking.{takes_up};
ghost use Rattle.subchannel_model.specs.declared.state.Chosen.TheVariants as chosen_spec;
ghost use Rattle.machine_model.specs.Bounds.{CanCount, CanUnitCount};
ghost use Rattle.chan_model.specs.UnitReports as reports_spec;
ghost use Rattle.chan_model.specs.UnitTable as unit_spec;
ghost use Rattle.chan_model.specs.UnitTable.{UnitStep};
ghost use Rattle.lookup.specs.Tables.{engaged};
ghost use Rattle.chan_events.specs.declared.reply.Reply.TheVariants as reply_spec;
ghost use Rattle.event_log.specs.Logs.{IsKept, answer_in};
ghost use Rattle.chan_events.specs.Replies.{plain_outcome, reply_of};
ghost use Rattle.unit.specs.UnitWords.{IsAllowed};
ghost use Rattle.wires.specs.Queues.{first_of, queue};

use crate::sending::{
    finds_down_full, finds_up_full, first_down, first_up, send_any_down, send_any_up,
};
use crate::sharing::take;
use active_program::sent::SentDown;
use chan_events::reply::{PlainReply, Reply};
use chan_model::fault::Fault;
use chan_model::lent::{LentDown, LentUp, PlainDown};
use chan_model::lent_forms::{lend_down, lend_up};
use chan_model::names::{Path, Side};
use chan_model::report::{Report, ReportPath};
use chan_model::signal::{Down, OnPath, Up};
use chan_model::unit_state::Connection;
use control_units::sharing::Sharing;
use event_log::logs::Log;
use functions::Subchannel;
use lookup::engines::Served;
use status::make_pending;
use storage_keys::MainStorage;
use subchannel::answering::{answer_path, answer_paths, standing_path};
use subchannel::choosing::{mark_lost_paths, offer, send_halt, send_reset};
use subchannel::paths::is_granted;
use subchannel::taking::take_up;
use subchannel_model::cause::StatusCause;
use subchannel_model::state::{Candidate, Chosen};
use unit::Unit;

/// Whether what was chosen is a signal that finds its wire full.
fn chosen_finds_full(sub: &Subchannel, chosen: &Chosen) -> bool
    ensures { giving_spec.TellsFull sub.now.wires.down
        (sending_spec.carried_by sub.now (giving_spec.signal_of_chosen sub.now.state chosen.now)) result }
{
    match chosen {
        Chosen::Resets { path, .. } | Chosen::Halts { path, .. } | Chosen::Offers { path, .. } =>
            finds_down_full(sub, *path),
        Chosen::Idle | Chosen::PerformsClear | Chosen::PerformsHalt | Chosen::FindsNoPath => false,
    }
}

/// A Reset is sent on a path.
#[inline(never)]
fn reset_on(sub: &mut Subchannel, number: u64, path: Path) -> PlainReply
    requires due { choosing_spec.IsFitFor (chosen_spec.Resets number path) sub.old.state.hold }
    requires room { giving_spec.HasRoomForChosen sub.old (chosen_spec.Resets number path) }
    ensures gives { choose_spec.choose_sub sub.old (chosen_spec.Resets number path) ≡ Ok (result_spec.leaves (reply_of result) sub.new) }
    ensures setup { sub.new.setup ≡ sub.old.setup }
{
    let available = sub.state.up();
    let reset = send_reset(&mut sub.state, path);
    send_any_down(&mut sub.wires, &available, &lend_down(&reset));
    Reply::ResetSent { path, number }
}

/// A Halt is sent on a path.
#[inline(never)]
fn halt_on(sub: &mut Subchannel, number: u64, path: Path) -> PlainReply
    requires { giving_spec.HasRoomForChosen sub.old (chosen_spec.Halts number path) }
    ensures gives { choose_spec.choose_sub sub.old (chosen_spec.Halts number path) ≡ Ok (result_spec.leaves (reply_of result) sub.new) }
    ensures setup { sub.new.setup ≡ sub.old.setup }
{
    let available = sub.state.up();
    let halt = Some(OnPath {
        path,
        signal: PlainDown::of(Down::Halt { number }),
    });
    send_any_down(&mut sub.wires, &available, &lend_down(&halt));
    send_halt(&mut sub.state);
    Reply::HaltSent { path, number }
}

/// A program is offered on a path.
#[inline(never)]
fn offer_on(sub: &mut Subchannel, candidate: Candidate, path: Path) -> PlainReply
    requires drawn { sub.old.state.drawn < 2 ^ 63 }
    requires free { choosing_spec.IsFitFor (chosen_spec.Offers candidate path) sub.old.state.hold }
    requires room { giving_spec.HasRoomForChosen sub.old (chosen_spec.Offers candidate path) }
    ensures gives { choose_spec.choose_sub sub.old (chosen_spec.Offers candidate path) ≡ Ok (result_spec.leaves (reply_of result) sub.new) }
    ensures setup { sub.new.setup ≡ sub.old.setup }
{
    let available = sub.state.up();
    let select = Some(offer(&mut sub.state, &candidate.program, path));
    send_any_down(&mut sub.wires, &available, &lend_down(&select));
    Reply::Offered {
        path,
        resumed: candidate.resumes,
        number: sub.state.rest().drawn,
    }
}

/// A status is made pending.
#[inline(never)]
fn pend_sub(sub: &mut Subchannel, cause: &StatusCause) -> PlainReply
    requires { sub.old.state.serials.made < 2 ^ 63 }
    ensures gives { choose_spec.pend_sub sub.old cause.now ≡ Ok (result_spec.leaves (reply_of result) sub.new) }
    ensures setup { sub.new.setup ≡ sub.old.setup }
{
    make_pending(&mut sub.state, cause);
    Reply::Pending
}

/// What was chosen is done.
fn act_on_choice(sub: &mut Subchannel, chosen: Chosen) -> PlainReply
    requires drawn { sub.old.state.drawn < 2 ^ 63 }
    requires made { sub.old.state.serials.made < 2 ^ 63 }
    requires fits { choosing_spec.IsFitFor chosen sub.old.state.hold }
    requires room { giving_spec.HasRoomForChosen sub.old chosen }
    ensures gives { choose_spec.choose_sub sub.old chosen ≡ Ok (result_spec.leaves (reply_of result) sub.new) }
    ensures setup { sub.new.setup ≡ sub.old.setup }
{
    match chosen {
        Chosen::Idle => Reply::Idle,
        Chosen::Resets { number, path } => reset_on(sub, number, path),
        Chosen::PerformsClear => pend_sub(sub, &StatusCause::ClearDone),
        Chosen::Halts { number, path } => halt_on(sub, number, path),
        Chosen::PerformsHalt => pend_sub(sub, &StatusCause::HaltDone),
        Chosen::FindsNoPath => pend_sub(sub, &StatusCause::NoPath),
        Chosen::Offers { candidate, path } => offer_on(sub, candidate, path),
    }
}

/// The subsystem does what was chosen, once it is known that what it sends finds room. Beforehand the paths that are found
/// not operational are marked so. `choice`: the path by which it was chosen.
pub fn choose_sub(
    sub: &mut Subchannel,
    choice: &Option<Path>,
    chosen: Chosen,
) -> Result<PlainReply, Fault>
    requires roomy { CanCount sub.old }
    requires fits { choosing_spec.IsFitFor chosen sub.old.state.hold }
    ensures gives { giving_spec.GivesSub sub.old
        (choose_spec.choose_sub (choosing_spec.marked_sub sub.old choice.now) chosen) (plain_outcome result) sub.new }
    ensures setup { sub.new.setup ≡ sub.old.setup }
{
    if chosen_finds_full(sub, &chosen) {
        return Err(Fault::WireFull);
    }
    mark_lost_paths(sub, choice);
    Ok(act_on_choice(sub, chosen))
}

/// Whether the wire down of the program that is offered or connected is full.
fn standing_finds_full(sub: &Subchannel) -> bool
    ensures { OnFalse result ((s : on_path.OnPath signals.Down) → answering_spec.standing_path sub.now.state.hold.phase ≡ Some s.path →
        giving_spec.TellsFull sub.now.wires.down (sending_spec.carried_by sub.now (Some s)) false) }
{
    match standing_path(&sub.state.rest().hold) {
        None => false,
        Some(at) => finds_down_full(sub, at),
    }
}

/// Whether an answer to a signal of a path may find its wire full.
fn answers_may_find_full(sub: &Subchannel, path: Path) -> bool
    ensures { OnFalse result ((s : on_path.OnPath signals.Down) → answering_spec.IsAnswerPath sub.now.state.hold.phase path (Some s.path) →
        giving_spec.TellsFull sub.now.wires.down (sending_spec.carried_by sub.now (Some s)) false) }
{
    finds_down_full(sub, path) || standing_finds_full(sub)
}

/// Whether what comes of a signal finds its wire full. It is asked where it goes only where a wire that it may go by is full.
fn up_finds_full<M: MainStorage>(
    storage: &M,
    sub: &Subchannel,
    path: Path,
    signal: &LentUp<'_>,
    returns: bool,
) -> bool
    requires { CanCount sub.now }
    ensures { giving_spec.TellsFull sub.now.wires.down (sending_spec.carried_by sub.now
        (takes_up returns (M.contents storage.now) sub.now.state path (lent_up signal.now)).step.outcome.sent) result }
{
    answer_paths();
    if !answers_may_find_full(sub, path) {
        return false;
    }
    match answer_path(storage, &sub.state, path, signal, returns) {
        None => false,
        Some(at) => finds_down_full(sub, at),
    }
}

/// A path of the subchannel.
pub fn path_of(sub: &Subchannel, path: u32) -> Option<Path>
    ensures { giving_spec.PathOf sub.now path result }
{
    if (path as usize) < sub.state.setup().paths.as_slice().len() {
        Path::new(path)
    } else {
        None
    }
}

/// Whether a program may come back by a path, where its Back waits there; no other signal asks.
pub fn returns_at(subs: &Served<'_>, sub: &Subchannel, path: Path) -> bool
    ensures { giving_spec.MayReturn subs.now sub.now path result }
{
    match sub.wires.front_up(path) {
        Some(
            LentUp {
                kept: Up::Back { .. },
                ..
            },
        ) => is_granted(subs, sub, path),
        _ => false,
    }
}

/// Whether a signal waits on the wire up of a path, and what comes of it finds room. A refusal is that of the event.
fn may_come_up<M: MainStorage>(
    storage: &M,
    sub: &Subchannel,
    path: Path,
    returns: bool,
) -> Result<(), Fault>
    requires roomy { CanCount sub.now }
    requires inside { nat_lt path (length sub.now.setup.paths) ≡ true }
    ensures waits { OnOk result (0 < length (queue sub.now.wires.up path)) }
    ensures room { OnOk result ((signal : signals.Up) → first_of sub.now.wires.up path ≡ Some signal →
        giving_spec.TellsFull sub.now.wires.down (sending_spec.carried_by sub.now
        (takes_up returns (M.contents storage.now) sub.now.state path signal).step.outcome.sent) false) }
    ensures refused { IfErr result (λ f. up_spec.up_sub returns (M.contents storage.now) sub.now path ≡ Err f) }
{
    let Some(front) = sub.wires.front_up(path) else {
        return Err(Fault::NotSent);
    };
    if up_finds_full(storage, sub, path, &front, returns) {
        return Err(Fault::WireFull);
    }
    Ok(())
}

/// The subchannel takes the signal that waits longest on the wire up of a path that it has, once it is known that what comes
/// of it finds room. `returns`: a program that is away may come back by the path.
pub fn up_sub<M: MainStorage>(
    storage: &mut M,
    sub: &mut Subchannel,
    path: Path,
    returns: bool,
    sent: &mut SentDown,
    log: &mut Log,
) -> Result<(), Fault>
    requires roomy { CanCount sub.old }
    requires inside { nat_lt path (length sub.old.setup.paths) ≡ true }
    requires room { 1 ≤ log.old.room }
    requires fresh { log.old.reply ≡ reply_spec.Done }
    ensures setup { sub.new.setup ≡ sub.old.setup }
    ensures gives { giving_spec.GivesStorage (M.contents storage.old) sub.old (up_spec.up_sub returns (M.contents storage.old) sub.old path)
        (answer_in result log.new) (M.contents storage.new) sub.new }
    ensures kept { IsKept log.old log.new }
    ensures refused { OnErr result (log.new ≡ log.old) }
    ensures lender { M.lender storage.new ≡ M.lender storage.old }
{
    may_come_up(storage, sub, path, returns)?;
    let available = sub.state.up();
    let first = first_up(&sub.wires, path);
    let met = take_up(storage, &mut sub.state, path, &first, returns, sent);
    let answer = sent.get();
    log.meet_up(&first, met.is_taken(), &answer);
    sub.wires.drop_up(path);
    send_any_down(&mut sub.wires, &available, &answer);
    Ok(())
}

/// The side of its unit that the subchannel reaches.
pub fn reached_side(sub: &Subchannel) -> Side
    ensures { result ≡ sub.now.setup.side }
{
    sub.state.setup().side
}

/// The number of the unit that the subchannel reaches.
pub fn reached_unit(sub: &Subchannel) -> u16
    ensures { result ≡ sub.now.setup.«unit» }
{
    sub.state.setup().unit
}

/// Whether the answer of a unit to a signal finds its wire full. What the control unit may do makes no difference.
fn answer_finds_full(sub: &Subchannel, unit: &Unit, path: Path, signal: &LentDown<'_>) -> bool
    ensures { (may : Bool) → giving_spec.TellsFull sub.now.wires.up (sending_spec.carried_by sub.now
        (unit_spec.outcome_of (unit_spec.unit_takes «unit».now sub.now.setup.side path (lent_down signal.now) may)).sent) result }
{
    finds_up_full(sub, path) && unit.answers(reached_side(sub), signal)
}

/// Whether a signal waits on the wire down of a path, and the answer to it finds room. A refusal is that of the event.
fn may_go_down(sub: &Subchannel, unit: &Unit, path: Path) -> Result<(), Fault>
    requires { nat_lt path (length sub.now.setup.paths) ≡ true }
    ensures waits { OnOk result (0 < length (queue sub.now.wires.down path)) }
    ensures room { OnOk result ((signal : signals.Down) (may : Bool) → first_of sub.now.wires.down path ≡ Some signal →
        giving_spec.TellsFull sub.now.wires.up (sending_spec.carried_by sub.now
        (unit_spec.outcome_of (unit_spec.unit_takes «unit».now sub.now.setup.side path signal may)).sent) false) }
    ensures refused { IfErr result (λ f. (members : List Member) → down_spec.down_shared members sub.now path «unit».now ≡ Err f) }
{
    let Some(front) = sub.wires.front_down(path) else {
        return Err(Fault::NotSent);
    };
    if answer_finds_full(sub, unit, path, &front) {
        return Err(Fault::WireFull);
    }
    Ok(())
}

/// The unit takes the signal that waits longest on the wire down of a path, once it is known that its answer finds room; its
/// control unit is asked where it must be.
pub fn down_sub(
    sub: &mut Subchannel,
    unit: &mut Unit,
    sharing: &mut Sharing,
    path: u32,
    log: &mut Log,
) -> Result<(), Fault>
    requires room { 1 ≤ log.old.room }
    requires fresh { log.old.reply ≡ reply_spec.Done }
    ensures engaged { engaged sub.new ≡ engaged sub.old }
    ensures state { sub.new.state ≡ sub.old.state }
    ensures gives { giving_spec.GivesShared sub.old «unit».old sharing.old
        (down_spec.down_shared sharing.old sub.old path «unit».old) (answer_in result log.new) sub.new «unit».new sharing.new }
    ensures kept { IsKept log.old log.new }
    ensures refused { OnErr result (log.new ≡ log.old) }
{
    let Some(path) = path_of(sub, path) else {
        return Err(Fault::NoSuchPath);
    };
    may_go_down(sub, unit, path)?;
    let side = reached_side(sub);
    let number = reached_unit(sub);
    let front = first_down(&sub.wires, path);
    let outcome = take(sharing, number, unit, side, path, &front);
    let answer = lend_up(&outcome.sent);
    log.meet_down(&front, outcome.taken, &answer);
    sub.wires.drop_down(path);
    send_any_up(sub, &answer);
    Ok(())
}

/// Whether what comes of a report, whose path is this, finds its wire full.
fn report_finds_full(sub: &Subchannel, path: &ReportPath) -> bool
    ensures { (step : Option UnitStep) → reports_spec.report_path step ≡ path.now →
        giving_spec.TellsFull sub.now.wires.up (sending_spec.carried_by sub.now (unit_spec.outcome_of step).sent) result }
{
    match path {
        ReportPath::SentOn(path) => finds_up_full(sub, *path),
        ReportPath::Refused | ReportPath::NothingSent => false,
    }
}

/// The unit takes a report whose program stands there, and sends what comes of it to the subchannel.
fn report_from(
    sub: &mut Subchannel,
    unit: &mut Unit,
    connection: &Connection,
    report: &Report,
) -> Result<PlainReply, Fault>
    requires roomy { CanUnitCount «unit».old }
    requires allowed { IsAllowed «unit».old report.now }
    ensures engaged { engaged sub.new ≡ engaged sub.old }
    ensures state { sub.new.state ≡ sub.old.state }
    ensures gives { giving_spec.GivesBoth sub.old «unit».old (report_spec.report_taken sub.old
        (reports_spec.report_on «unit».old report.now.number connection.now «unit».old.current report.now))
        (plain_outcome result) sub.new «unit».new }
{
    let path = unit.path_from(connection, report);
    if let ReportPath::Refused = path {
        return Err(Fault::NotNow);
    }
    if report_finds_full(sub, &path) {
        return Err(Fault::WireFull);
    }
    let reported = unit.report_from(connection, report);
    let outcome = unit.lend(&reported);
    send_any_up(sub, &outcome.sent);
    Ok(Reply::Done)
}

/// The unit takes its device's answer, and sends what comes of it to the subchannel.
pub fn report_sub(
    sub: &mut Subchannel,
    unit: &mut Unit,
    report: &Report,
) -> Result<PlainReply, Fault>
    requires { CanUnitCount «unit».old }
    ensures engaged { engaged sub.new ≡ engaged sub.old }
    ensures state { sub.new.state ≡ sub.old.state }
    ensures gives { giving_spec.GivesBoth sub.old «unit».old (report_spec.report_sub sub.old «unit».old report.now)
        (plain_outcome result) sub.new «unit».new }
{
    match unit.reporting(report) {
        None => Err(Fault::NotNow),
        Some(connection) => report_from(sub, unit, &connection, report),
    }
}
