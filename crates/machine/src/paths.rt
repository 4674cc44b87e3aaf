//! Channel paths that go down, come up and are reset, and the reset of the channel subsystem.

ghost use Rattle.std.specs.Prelude.{◌≡◌, ◌<◌, All, map};
ghost use Rattle.chan_events.specs.declared.event.Event.TheVariants as event_spec;
ghost use Rattle.lookup.specs.Tables.{Serves, engaged as engaged_by, served_at};
ghost use Rattle.machine_model.specs.Bounds.{CanCount};
ghost use Rattle.machine_model.specs.PathSteps as path_spec;
ghost use Rattle.machine_model.specs.Requests as requests_spec;
ghost use Rattle.machine_model.specs.Steps as spec;
ghost use Rattle.signal_step.specs.Giving as giving_spec;
ghost use Rattle.machine_model.specs.State.{lent};
ghost use Rattle.machine.specs.Postable.{IsPostable};
ghost use Rattle.storage_keys.specs.Storage.{Contents};
ghost use Rattle.chan_events.specs.Replies.{plain_outcome};

use crate::machine::Machine;
use chan_events::reply::{PlainReply, Reply};
use chan_model::fault::Fault;
use channel_reports::Reports;
use functions::Subchannel;
use interruptions::Pending;
use lookup::engines::{Engines, engaged};
use machine_model::state::Sweep;
use signal_step::posting::{made_by, post};
use signal_step::tables::has_chpid;
use subchannel::losing::{go_down, lose_path, show_path};
use subchannel::system_reset::reset_by_system;

/// The channel path of this identifier, where it is configured.
fn chpid_of(chpids: &[u8], number: u32) -> Option<u8>
    ensures { giving_spec.ChpidOf chpids.now number result }
{
    if has_chpid(chpids, number as usize) {
        Some(number as u8)
    } else {
        None
    }
}

fn sweep(sub: &mut Subchannel, what: Sweep)
    requires { CanCount sub.old }
    ensures { sub.new ≡ path_spec.swept what sub.old }
{
    match what {
        Sweep::GoesDown { chpid } => go_down(sub, chpid),
        Sweep::ComesUp { chpid } => show_path(sub, chpid, true),
        Sweep::PathReset { chpid } => lose_path(sub, chpid),
        Sweep::SystemReset => reset_by_system(sub),
    }
}

/// What befalls all subchannels befalls the one at this index: its request is posted, and its engine goes by it.
fn sweep_one(
    sub: &mut Subchannel,
    index: usize,
    pending: &mut Pending,
    engines: &mut Engines,
    what: Sweep,
)
    requires roomy { CanCount sub.old }
    requires postable { sub.old.setup.id.number < pending.old.numbers }
    ensures swept { sub.new ≡ path_spec.swept what sub.old }
    ensures posted { pending.new ≡ requests_spec.posted_for sub.old sub.new pending.old }
    ensures served { engines.new ≡ served_at index (engaged_by sub.old) (engaged_by sub.new) engines.old }
{
    let before = engaged(sub);
    let made = made_by(sub);
    sweep(sub, what);
    post(pending, sub, made);
    let after = engaged(sub);
    engines.change(index, before, after);
}

/// What befalls all subchannels, in the order of their configuration.
fn sweep_all(subs: &mut Vec<Subchannel>, pending: &mut Pending, engines: &mut Engines, what: Sweep)
    requires roomy { All CanCount subs.old.items }
    requires postable { All IsPostable subs.old.items }
    requires numbers { pending.old.numbers ≡ 0x100 }
    requires served { Serves engines.old subs.old.items }
    ensures swept { subs.new.items ≡ map (path_spec.swept what) subs.old.items }
    ensures posted { pending.new ≡
        requests_spec.posted_all subs.old.items (map (path_spec.swept what) subs.old.items) pending.old }
    ensures served { Serves engines.new subs.new.items }
{
    for (index, sub) in subs.iter_mut().enumerate() {
        sweep_one(sub, index, pending, engines, what);
    }
}

impl Machine {
    /// A channel path goes down.
    #[inline(never)]
    pub(crate) fn path_down(&mut self, number: u32) -> Result<PlainReply, Fault>
        requires roomy { All CanCount self.old.subs }
        requires postable { All IsPostable self.old.subs }
        requires requests { self.old.requests.numbers ≡ 0x100 }
        ensures { (storage : Contents) → spec.Performs (lent self.old storage) (event_spec.PathDown number) (plain_outcome result) (lent self.new storage) }
    {
        let Some(chpid) = chpid_of(self.chpids.as_slice(), number) else {
            return Err(Fault::NoSuchPath);
        };
        if !self.up[usize::from(chpid)] {
            return Err(Fault::NotNow);
        }
        let what = Sweep::GoesDown { chpid };
        sweep_all(&mut self.subs, &mut self.pending, &mut self.engines, what);
        self.up[usize::from(chpid)] = false;
        self.reports.path_lost(chpid);
        Ok(Reply::Done)
    }

    /// A channel path that was down comes up, which is reported as the set-up says.
    #[inline(never)]
    pub(crate) fn path_up(&mut self, number: u32) -> Result<PlainReply, Fault>
        requires roomy { All CanCount self.old.subs }
        requires postable { All IsPostable self.old.subs }
        requires requests { self.old.requests.numbers ≡ 0x100 }
        ensures { (storage : Contents) → spec.Performs (lent self.old storage) (event_spec.PathUp number) (plain_outcome result) (lent self.new storage) }
    {
        let Some(chpid) = chpid_of(self.chpids.as_slice(), number) else {
            return Err(Fault::NoSuchPath);
        };
        if self.up[usize::from(chpid)] {
            return Err(Fault::NotNow);
        }
        let what = Sweep::ComesUp { chpid };
        sweep_all(&mut self.subs, &mut self.pending, &mut self.engines, what);
        self.up[usize::from(chpid)] = true;
        let report = self.path_return.report();
        self.reports.add(report, chpid);
        Ok(Reply::Done)
    }

    /// A channel path whose reset is asked for is reset.
    #[inline(never)]
    pub(crate) fn path_reset(&mut self, number: u32) -> Result<PlainReply, Fault>
        requires roomy { All CanCount self.old.subs }
        requires postable { All IsPostable self.old.subs }
        requires requests { self.old.requests.numbers ≡ 0x100 }
        ensures { (storage : Contents) → spec.Performs (lent self.old storage) (event_spec.PathReset number) (plain_outcome result) (lent self.new storage) }
    {
        let Some(chpid) = chpid_of(self.chpids.as_slice(), number) else {
            return Err(Fault::NoSuchPath);
        };
        if !self.reports.reset_done(chpid) {
            return Err(Fault::NotNow);
        }
        let what = Sweep::PathReset { chpid };
        sweep_all(&mut self.subs, &mut self.pending, &mut self.engines, what);
        Ok(Reply::Done)
    }

    /// The channel subsystem is reset.
    #[inline(never)]
    pub(crate) fn system_reset(&mut self) -> Result<PlainReply, Fault>
        requires roomy { All CanCount self.old.subs }
        requires postable { All IsPostable self.old.subs }
        requires requests { self.old.requests.numbers ≡ 0x100 }
        ensures { (storage : Contents) → spec.Performs (lent self.old storage) event_spec.SystemReset (plain_outcome result) (lent self.new storage) }
    {
        self.pending.drop_all();
        self.reports = Reports::new();
        let what = Sweep::SystemReset;
        sweep_all(&mut self.subs, &mut self.pending, &mut self.engines, what);
        Ok(Reply::Done)
    }
}
