//! A channel subsystem without its history: what each event does to the whole.

ghost use Rattle.std.specs.Prelude.{◌≡◌, ◌<◌, ◌≤◌, All, OnErr, None, Some, IfSome, length, slice_get};
ghost use Rattle.subchannel_model.specs.declared.state.Subchannel.{Subchannel};
ghost use Rattle.machine_model.specs.State as state_spec;
ghost use Rattle.machine_model.specs.Ruled.{GoesByRule};
ghost use Rattle.machine_model.specs.Steps as spec;
ghost use Rattle.machine_model.specs.Bounds.{CanCount, CanUnitCount};
ghost use Rattle.machine_model.specs.State.{lent, no_storage};
ghost use Rattle.machine.specs.Postable.{IsPostable};
ghost use Rattle.storage_keys.specs.Storage.{Contents};
ghost use Rattle.chan_events.specs.declared.event.Event.TheVariants as event_spec;
ghost use Rattle.lookup.specs.Tables.{Fits};
ghost use Rattle.chan_events.specs.declared.reply.Reply.TheVariants as reply_spec;
ghost use Rattle.event_log.specs.Logs.{IsKept, answer_in};
ghost use Rattle.chan_events.specs.Replies.{plain_outcome};

use crate::storage_events::{put, set_key, set_prefix, show};
use active_program::sent::SentDown;
use chan_events::event::{Event, Instruction, OtherInstruction, UnitAct};
use chan_events::reply::{PlainReply, Reply};
use chan_model::fault::Fault;
use chan_model::names::{Cpu, Path};
use chan_model::report::Report;
use channel_config::names::subchannel_named;
use channel_config::parts::PathReturn;
use channel_reports::Reports;
use control_units::sharing::Sharing;
use event_log::logs::Log;
use functions::Subchannel;
use interruptions::Pending;
use io_step::{ChannelPaths, PathTable, execute_absent, perform_other, perform_provided};
use lookup::engines::{Engines, Served, engaged};
use lookup::tables::SubchannelIndex;
use path_select::PathChoice;
use run_laws::engines::engines;
use scsw_irb::serials::Serials;
use signal_step::acts::{act_sub, not_held, side_of_act};
use signal_step::posting::{made_by, post};
use signal_step::sharing::restart;
use signal_step::tables::engaged_for;
use signal_step::turns::{
    choose_sub, down_sub, path_of, reached_unit, report_sub, returns_at, up_sub,
};
use std::marker::Model;
use storage_keys::MainStorage;
use subchannel::choosing::{chosen, paths_to_choose};
use unit::Unit;

/// The path of the last offer, Reset or Grant.
fn last_path_of(sub: &Subchannel) -> Option<Path>
    ensures { result ≡ sub.now.state.last_path }
{
    sub.state.rest().last_path
}

/// Channel paths, subchannels and units, and what waits for the program. Main storage is another's, and lent for each call.
#[derive(Drop)]
pub struct Machine {
    pub(crate) sets: u8,
    pub(crate) chpids: Vec<u8>,
    /// Of each channel path, whether it is configured and not down.
    pub(crate) up: PathTable,
    pub(crate) subs: Vec<Subchannel>,
    pub(crate) units: Vec<Unit>,
    pub(crate) sharing: Sharing,
    pub(crate) pending: Pending,
    pub(crate) reports: Reports,
    /// How a channel path that is back is reported.
    pub(crate) path_return: PathReturn,
    pub(crate) engines: Engines,
    /// What a subchannel sends for a signal, before it is on its wire.
    pub(crate) sent: SentDown,
}

impl Model for Machine {
    ghost use Rattle.std.specs.Prelude.{◌≤◌, length};
    ghost use Rattle.machine_model.specs.State.{State};
    ghost use Rattle.machine_model.specs.State.{no_storage};
    ghost use Rattle.lookup.specs.Tables.{Serves};

    ghost Value = { State };

    ghost view = { λ m. record {
      storage = no_storage;
      sets = m.sets;
      chpids = m.chpids.items;
      up = m.up;
      subs = m.subs.items;
      units = m.units.items;
      members = m.sharing;
      requests = m.pending;
      reports = m.reports;
      path_return = m.path_return;
    } };

    ghost invariant = { λ m. Serves m.engines m.subs.items × (length m.units.items ≤ 0x10000) };
}

impl Machine {
    /// It has no storage of its own.
    pub fn apart(&self)
        ensures { self.now ≡ lent self.now no_storage }
    {
        let _ = &self.subs;
    }

    /// How many subchannels there are.
    pub fn count(&self) -> usize
        ensures { result ≡ length self.now.subs }
    {
        self.subs.len()
    }

    /// The index of the subchannel that a subsystem-identification word names.
    pub fn index_of(&self, indices: &SubchannelIndex, word: u32) -> Option<usize>
        requires fits { Fits indices.now self.now.subs }
        ensures index { result ≡ state_spec.index_of self.now word }
        ensures bound { IfSome result (λ index. index < length self.now.subs) }
    {
        match subchannel_named(self.sets, word) {
            None => None,
            Some(id) => indices.index_in(id, self.subs.as_slice()),
        }
    }

    /// The serials of the subchannel that a word names.
    pub fn serials(&self, indices: &SubchannelIndex, word: u32) -> Option<Serials>
        requires fits { Fits indices.now self.now.subs }
        ensures { result ≡ state_spec.serials_in (state_spec.sub_of self.now word) }
    {
        match self.index_of(indices, word) {
            None => None,
            Some(index) => self.serials_at(index),
        }
    }

    /// The serials of the subchannel at an index.
    pub fn serials_at(&self, index: usize) -> Option<Serials>
        ensures { result ≡ state_spec.serials_in (slice_get self.now.subs index) }
    {
        let sub = self.subs.get(index)?;
        Some(sub.state.rest().serials)
    }

    #[inline(always)]
    fn execute<M: MainStorage>(
        &mut self,
        storage: &mut M,
        indices: &SubchannelIndex,
        cpu: Cpu,
        instruction: &Instruction,
    ) -> Result<PlainReply, Fault>
        requires fits { Fits indices.now self.old.subs }
        requires roomy { All CanCount self.old.subs }
        requires postable { All IsPostable self.old.subs }
        requires requests { self.old.requests.numbers ≡ 0x100 }
        ensures performs { spec.Performs (lent self.old (M.contents storage.old)) (event_spec.Execute cpu instruction.now) (plain_outcome result) (lent self.new (M.contents storage.new)) }
        ensures lender { M.lender storage.new ≡ M.lender storage.old }
    {
        engines();
        let instruction = *instruction;
        let Some(id) = subchannel_named(self.sets, instruction.subchannel_word()) else {
            return Err(Fault::Operand);
        };
        let Some(index) = indices.index_in(id, self.subs.as_slice()) else {
            return execute_absent(storage, cpu, instruction);
        };
        let sub = &mut self.subs[index];
        let before = engaged(sub);
        let made = made_by(sub);
        let answer = perform_provided(storage, sub, &mut self.pending, cpu, instruction);
        post(&mut self.pending, sub, made);
        let after = engaged(sub);
        self.engines.change(index, before, after);
        answer
    }

    #[inline(never)]
    fn execute_other<M: MainStorage>(
        &mut self,
        storage: &mut M,
        cpu: Cpu,
        instruction: OtherInstruction,
    ) -> Result<PlainReply, Fault>
        ensures performs { spec.Performs (lent self.old (M.contents storage.old)) (event_spec.ExecuteOther cpu instruction) (plain_outcome result) (lent self.new (M.contents storage.new)) }
        ensures lender { M.lender storage.new ≡ M.lender storage.old }
    {
        let served = Served::of(self.subs.as_slice(), &self.engines);
        let paths = ChannelPaths {
            up: self.up,
            engaged: engaged_for(&served, instruction),
        };
        perform_other(
            storage,
            &mut self.pending,
            &mut self.reports,
            &paths,
            cpu,
            instruction,
        )
    }

    #[inline(always)]
    fn choose<P: PathChoice>(
        &mut self,
        indices: &SubchannelIndex,
        choice: &P,
        word: u32,
    ) -> Result<PlainReply, Fault>
        requires fits { Fits indices.now self.old.subs }
        requires roomy { All CanCount self.old.subs }
        requires postable { All IsPostable self.old.subs }
        requires requests { self.old.requests.numbers ≡ 0x100 }
        ensures performs { (storage : Contents) → spec.Performs (lent self.old storage) (event_spec.Choose word) (plain_outcome result) (lent self.new storage) }
        ensures ruled { (storage : Contents) → GoesByRule P.picks (lent self.old storage) (event_spec.Choose word) (plain_outcome result) (lent self.new storage) }
    {
        engines();
        let Some(index) = self.index_of(indices, word) else {
            return Err(Fault::NoSuchSubchannel);
        };
        let served = Served::of(self.subs.as_slice(), &self.engines);
        let paths = paths_to_choose(&served, &self.subs[index]);
        let sub = &mut self.subs[index];
        let path = choice.choose(&paths, last_path_of(sub));
        let what = chosen(sub, path);
        let before = engaged(sub);
        let made = made_by(sub);
        let answer = choose_sub(sub, &path, what);
        let after = engaged(sub);
        self.engines.change(index, before, after);
        post(&mut self.pending, sub, made);
        answer
    }

    #[inline(never)]
    fn up<M: MainStorage>(
        &mut self,
        storage: &mut M,
        indices: &SubchannelIndex,
        word: u32,
        path: u32,
        log: &mut Log,
    ) -> Result<(), Fault>
        requires fits { Fits indices.now self.old.subs }
        requires roomy { All CanCount self.old.subs }
        requires postable { All IsPostable self.old.subs }
        requires requests { self.old.requests.numbers ≡ 0x100 }
        requires room { 1 ≤ log.old.room }
        requires fresh { log.old.reply ≡ reply_spec.Done }
        ensures performs { spec.Performs (lent self.old (M.contents storage.old)) (event_spec.Up word path) (answer_in result log.new) (lent self.new (M.contents storage.new)) }
        ensures kept { IsKept log.old log.new }
        ensures refused { OnErr result (log.new ≡ log.old) }
        ensures lender { M.lender storage.new ≡ M.lender storage.old }
    {
        engines();
        let Some(index) = self.index_of(indices, word) else {
            return Err(Fault::NoSuchSubchannel);
        };
        let Some(path) = path_of(&self.subs[index], path) else {
            return Err(Fault::NoSuchPath);
        };
        let served = Served::of(self.subs.as_slice(), &self.engines);
        let returns = returns_at(&served, &self.subs[index], path);
        let sub = &mut self.subs[index];
        let before = engaged(sub);
        let made = made_by(sub);
        let answer = up_sub(storage, sub, path, returns, &mut self.sent, log);
        post(&mut self.pending, sub, made);
        let after = engaged(sub);
        self.engines.change(index, before, after);
        answer
    }

    #[inline(never)]
    fn down(
        &mut self,
        indices: &SubchannelIndex,
        word: u32,
        path: u32,
        log: &mut Log,
    ) -> Result<(), Fault>
        requires fits { Fits indices.now self.old.subs }
        requires room { 1 ≤ log.old.room }
        requires fresh { log.old.reply ≡ reply_spec.Done }
        ensures performs { (storage : Contents) → spec.Performs (lent self.old storage) (event_spec.Down word path) (answer_in result log.new) (lent self.new storage) }
        ensures kept { IsKept log.old log.new }
        ensures refused { OnErr result (log.new ≡ log.old) }
    {
        let Some(index) = self.index_of(indices, word) else {
            return Err(Fault::NoSuchSubchannel);
        };
        let number = usize::from(reached_unit(&self.subs[index]));
        if number >= self.units.len() {
            return Err(Fault::NoSuchUnit);
        }
        let sub = &mut self.subs[index];
        let unit = &mut self.units[number];
        down_sub(sub, unit, &mut self.sharing, path, log)
    }

    #[inline(always)]
    fn report(
        &mut self,
        indices: &SubchannelIndex,
        number: u32,
        report: &Report,
    ) -> Result<PlainReply, Fault>
        requires fits { Fits indices.now self.old.subs }
        requires roomy { All CanUnitCount self.old.units }
        ensures { (storage : Contents) → spec.Performs (lent self.old storage) (event_spec.Report number report.now) (plain_outcome result) (lent self.new storage) }
    {
        let number = number as usize;
        if number >= self.units.len() {
            return Err(Fault::NoSuchUnit);
        }
        let Some(index) = indices.reached_in(number, report.side, self.subs.as_slice()) else {
            return Err(Fault::NotNow);
        };
        let sub = &mut self.subs[index];
        let unit = &mut self.units[number];
        report_sub(sub, unit, report)
    }

    /// `execute`, with its reply in the log.
    #[inline(never)]
    fn tell_code<M: MainStorage>(
        &mut self,
        storage: &mut M,
        indices: &SubchannelIndex,
        cpu: Cpu,
        instruction: &Instruction,
        log: &mut Log,
    ) -> Result<(), Fault>
        requires fits { Fits indices.now self.old.subs }
        requires roomy { All CanCount self.old.subs }
        requires postable { All IsPostable self.old.subs }
        requires requests { self.old.requests.numbers ≡ 0x100 }
        requires room { 1 ≤ log.old.room }
        requires fresh { log.old.reply ≡ reply_spec.Done }
        ensures performs { spec.Performs (lent self.old (M.contents storage.old)) (event_spec.Execute cpu instruction.now) (answer_in result log.new) (lent self.new (M.contents storage.new)) }
        ensures kept { IsKept log.old log.new }
        ensures refused { OnErr result (log.new ≡ log.old) }
        ensures lender { M.lender storage.new ≡ M.lender storage.old }
    {
        log.tell(&self.execute(storage, indices, cpu, instruction))
    }

    /// `choose`, with its reply in the log.
    #[inline(never)]
    fn tell_choice<P: PathChoice>(
        &mut self,
        indices: &SubchannelIndex,
        choice: &P,
        word: u32,
        log: &mut Log,
    ) -> Result<(), Fault>
        requires fits { Fits indices.now self.old.subs }
        requires roomy { All CanCount self.old.subs }
        requires postable { All IsPostable self.old.subs }
        requires requests { self.old.requests.numbers ≡ 0x100 }
        requires room { 1 ≤ log.old.room }
        requires fresh { log.old.reply ≡ reply_spec.Done }
        ensures performs { (storage : Contents) → spec.Performs (lent self.old storage) (event_spec.Choose word) (answer_in result log.new) (lent self.new storage) }
        ensures ruled { (storage : Contents) → GoesByRule P.picks (lent self.old storage) (event_spec.Choose word) (answer_in result log.new) (lent self.new storage) }
        ensures kept { IsKept log.old log.new }
        ensures refused { OnErr result (log.new ≡ log.old) }
    {
        log.tell(&self.choose(indices, choice, word))
    }

    /// `report`, with its reply in the log.
    #[inline(never)]
    fn tell_report(
        &mut self,
        indices: &SubchannelIndex,
        number: u32,
        report: &Report,
        log: &mut Log,
    ) -> Result<(), Fault>
        requires fits { Fits indices.now self.old.subs }
        requires roomy { All CanUnitCount self.old.units }
        requires room { 1 ≤ log.old.room }
        requires fresh { log.old.reply ≡ reply_spec.Done }
        ensures performs { (storage : Contents) → spec.Performs (lent self.old storage) (event_spec.Report number report.now) (answer_in result log.new) (lent self.new storage) }
        ensures kept { IsKept log.old log.new }
        ensures refused { OnErr result (log.new ≡ log.old) }
    {
        log.tell(&self.report(indices, number, report))
    }

    #[inline(never)]
    fn act(
        &mut self,
        indices: &SubchannelIndex,
        number: u32,
        act: UnitAct,
    ) -> Result<PlainReply, Fault>
        requires fits { Fits indices.now self.old.subs }
        requires roomy { All CanUnitCount self.old.units }
        ensures { (storage : Contents) → spec.Performs (lent self.old storage) (event_spec.Act number act) (plain_outcome result) (lent self.new storage) }
    {
        let number = number as usize;
        if number >= self.units.len() {
            return Err(Fault::NoSuchUnit);
        }
        let Some(side) = side_of_act(&self.units[number], act) else {
            return Err(not_held(indices, number, act, self.subs.as_slice()));
        };
        let Some(index) = indices.reached_in(number, side, self.subs.as_slice()) else {
            return Err(Fault::NotNow);
        };
        let sub = &mut self.subs[index];
        let unit = &mut self.units[number];
        act_sub(sub, unit, act)
    }

    #[inline(never)]
    fn restart(&mut self, number: u32) -> Result<PlainReply, Fault>
        requires { All CanUnitCount self.old.units }
        ensures { (storage : Contents) → spec.Performs (lent self.old storage) (event_spec.Restart number) (plain_outcome result) (lent self.new storage) }
    {
        if number as usize >= self.units.len() {
            return Err(Fault::NoSuchUnit);
        }
        let unit = &mut self.units[number as usize];
        restart(&mut self.sharing, number as u16, unit);
        Ok(Reply::Done)
    }

    /// Performs one event, with its reply in the log, where it begins an entry; a refusal changes nothing.
    #[inline(always)]
    #[tactic(auto, using(crate::proofs::Storing::put_performs, crate::proofs::Storing::key_performs, crate::proofs::Storing::prefix_performs, crate::proofs::Storing::show_performs))]
    pub fn perform<M: MainStorage, P: PathChoice>(
        &mut self,
        storage: &mut M,
        indices: &SubchannelIndex,
        choice: &P,
        event: &Event,
        log: &mut Log,
    ) -> Result<(), Fault>
        requires fits { Fits indices.now self.old.subs }
        requires subs { All CanCount self.old.subs }
        requires units { All CanUnitCount self.old.units }
        requires postable { All IsPostable self.old.subs }
        requires requests { self.old.requests.numbers ≡ 0x100 }
        requires room { 1 ≤ log.old.room }
        requires fresh { log.old.reply ≡ reply_spec.Done }
        ensures performs { spec.Performs (lent self.old (M.contents storage.old)) event.now (answer_in result log.new) (lent self.new (M.contents storage.new)) }
        ensures ruled { GoesByRule P.picks (lent self.old (M.contents storage.old)) event.now (answer_in result log.new) (lent self.new (M.contents storage.new)) }
        ensures kept { IsKept log.old log.new }
        ensures refused { OnErr result (log.new ≡ log.old) }
        ensures lender { M.lender storage.new ≡ M.lender storage.old }
    {
        let answer = match event {
            Event::Up { subchannel, path } => return self.up(
                storage,
                indices,
                *subchannel,
                *path,
                log,
            ),
            Event::Down { subchannel, path } => return self.down(indices, *subchannel, *path, log),
            Event::Report { unit, report } => return self.tell_report(indices, *unit, report, log),
            Event::Choose { subchannel } => {
                return self.tell_choice(indices, choice, *subchannel, log);
            }
            Event::Execute { cpu, instruction } => {
                return self.tell_code(storage, indices, *cpu, instruction, log);
            }
            Event::Show { address, length } => return show(storage, *address, *length, log),
            Event::Act { unit, act } => self.act(indices, *unit, *act),
            Event::Put { address, bytes } => put(storage, *address, bytes),
            Event::SetKey { address, key } => set_key(storage, *address, *key),
            Event::SetPrefix { cpu, address } => set_prefix(storage, *cpu, *address),
            Event::ExecuteOther { cpu, instruction } => self.execute_other(
                storage,
                *cpu,
                *instruction,
            ),
            Event::Restart { unit } => self.restart(*unit),
            Event::PathDown { chpid } => self.path_down(*chpid),
            Event::PathUp { chpid } => self.path_up(*chpid),
            Event::PathReset { chpid } => self.path_reset(*chpid),
            Event::SystemReset => self.system_reset(),
        };
        log.tell(&answer)
    }
}
