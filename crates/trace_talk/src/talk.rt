//! A talk: each line is performed as it is read, and answered.

ghost use Rattle.std.specs.Prelude.{◌≡◌};
ghost use Rattle.glance_directory.specs.Directory.{directory_of};
ghost use Rattle.machine_model.specs.State.{opening_of};
ghost use Rattle.subsystem.specs.Keeping.{all_serials};

use crate::asking::{Asked, asked_of};
use crate::at_machine::Partner;
use crate::input::{Came, Input};
use crate::spoken::{Spoken, said_by};
use crate::stepping::Stepping;
use channel_config::config::{Config, ConfigFault};
use core_lock::naming::MachineBrand;
use core_lock::parts::Parts;
use core_lock::supplies::CoreSupply;
use line_reasons::checker::{Checker, Checking};
use line_reasons::printing::put_fault;
use memory::Supply;
use script_rows::settings::configure;
use std::alloc::Global;
use std::io::BufRead;
use std::marker::Brand;
use streams::Sink;
use trace_runs::TraceFault;
use trace_runs::tracer::Tracer;

/// What a talk came to.
#[derive(Clone, Copy, PartialEq, Eq)]
pub struct Talked {
    /// All answers were written; otherwise the sink failed.
    pub whole: bool,
    /// The reader failed before its end.
    pub unread: bool,
    /// Some line was refused.
    pub refused: bool,
    /// Some line was bad.
    pub bad: bool,
}

/// How a part of a talk ended.
#[derive(Clone, Copy, PartialEq, Eq)]
pub(crate) enum Turn {
    /// A line was taken back: all that were kept are performed again.
    Back,
    /// No line comes any more, or the sink failed.
    Ended,
}

/// What becomes of a line.
#[derive(Clone, Copy, PartialEq, Eq)]
pub(crate) enum Heard {
    /// It was answered.
    Answered,
    /// It acts.
    Acts,
    /// The line before was taken back.
    Back,
}

/// A talk: where its lines come from, where answers go, and what it came to so far.
#[derive(Drop)]
pub(crate) struct Talk<'s, R: BufRead + Drop, S: Sink> {
    pub(crate) alloc: Global,
    pub(crate) input: Input<R>,
    pub(crate) sink: &'s mut S,
    pub(crate) talked: Talked,
}

/// How lines end that set up.
#[derive(Clone, Copy)]
enum SettingUp {
    /// The talk, or this part of it, is over.
    Ends(Turn),
    /// A line acts, which came so.
    Acts(Came),
}

/// What lines have set up so far.
#[derive(Drop)]
struct SetUp {
    checker: Checker,
    config: Config,
    /// How many lines were kept.
    count: u64,
}

/// What is answered to a question and to a turn before the machine is there.
const NO_MACHINE: &[u8] = b"there is no machine yet: its first action opens it";

/// Talks until no line comes any more: each line is answered by one line, and a question by its lines and an empty one.
pub fn run_talk<M: CoreSupply, R: BufRead + Drop, S: Sink>(
    alloc: Global,
    supply: &mut M,
    reader: R,
    sink: &mut S,
) -> Result<Talked, TraceFault> {
    let mut talk = Talk {
        alloc,
        input: Input::new(alloc, reader),
        sink,
        talked: Talked {
            whole: true,
            unread: false,
            refused: false,
            bad: false,
        },
    };
    for _ in 0..u64::MAX {
        if let Turn::Ended = talk.begin(supply)? {
            break;
        }
    }
    Ok(talk.talked)
}

impl<R: BufRead + Drop, S: Sink> Talk<'_, R, S> {
    /// Whether no line is to be answered any more.
    pub(crate) fn is_over(&mut self, came: Came) -> bool {
        self.talked.unread = came == Came::Unread;
        came == Came::Ended || came == Came::Unread || !self.talked.whole
    }

    /// Answers in one line.
    pub(crate) fn answer(&mut self, text: &[u8]) {
        if !(self.sink.put(text) && self.sink.put(b"\n")) {
            self.talked.whole = false;
        }
    }

    /// What the lines that were kept and those that come set up, until one acts; then the rest at the machine.
    fn begin<M: CoreSupply>(&mut self, supply: &mut M) -> Result<Turn, TraceFault> {
        let mut set_up = SetUp {
            checker: Checker::new(self.alloc, Checking::Dialogue),
            config: Config::new(self.alloc),
            count: 0,
        };
        let mut line = Vec::new(self.alloc);
        match self.set_up_all(supply, &mut set_up, &mut line) {
            Ok(SettingUp::Acts(came)) => self.open(supply, set_up, came, line.as_slice()),
            Ok(SettingUp::Ends(turn)) => Ok(turn),
            Err(fault) => Err(fault),
        }
    }

    /// Takes lines before the machine is there, until one acts; each is written into a list.
    fn set_up_all<M: CoreSupply>(
        &mut self,
        supply: &mut M,
        set_up: &mut SetUp,
        line: &mut Vec<u8>,
    ) -> Result<SettingUp, TraceFault> {
        for _ in 0..u64::MAX {
            if let Some(ends) = self.set_up_next(supply, set_up, line)? {
                return Ok(ends);
            }
        }
        Ok(SettingUp::Ends(Turn::Ended))
    }

    /// Takes the next of them: how they end by it, where they do.
    fn set_up_next<M: CoreSupply>(
        &mut self,
        supply: &mut M,
        set_up: &mut SetUp,
        line: &mut Vec<u8>,
    ) -> Result<Option<SettingUp>, TraceFault> {
        let came = self.input.next(line)?;
        if self.is_over(came) {
            return Ok(Some(SettingUp::Ends(Turn::Ended)));
        }
        match self.set_up_by(supply, set_up, came, line.as_slice())? {
            Heard::Answered => Ok(None),
            Heard::Back => Ok(Some(SettingUp::Ends(Turn::Back))),
            Heard::Acts => Ok(Some(SettingUp::Acts(came))),
        }
    }

    /// Takes a line before the machine is there.
    fn set_up_by<M: CoreSupply>(
        &mut self,
        supply: &mut M,
        set_up: &mut SetUp,
        came: Came,
        line: &[u8],
    ) -> Result<Heard, TraceFault> {
        if came == Came::Read {
            match asked_of(line) {
                Some(Asked::Script) => {}
                Some(Asked::Back) => return self.take_back(),
                Some(Asked::Question(_)) => {
                    self.answer(NO_MACHINE);
                    self.answer(b"");
                    return Ok(Heard::Answered);
                }
                Some(Asked::Turn { .. }) => return self.refuse(NO_MACHINE),
                None => return self.refuse_asking(line),
            }
        }
        if !self.is_good(supply, &mut set_up.checker, set_up.count, line)? {
            return Ok(Heard::Answered);
        }
        set_up.count = set_up.count.saturating_add(1);
        match said_by(self.alloc, supply, line)? {
            Spoken::Acts => Ok(Heard::Acts),
            said => self.set(supply, set_up, came, &said, line),
        }
    }

    /// Takes a setting, or a line without words.
    fn set<M: CoreSupply>(
        &mut self,
        supply: &mut M,
        set_up: &mut SetUp,
        came: Came,
        said: &Spoken,
        line: &[u8],
    ) -> Result<Heard, TraceFault> {
        if let Spoken::Sets(setting) = said {
            if let Err(ConfigFault::NoMemory) = configure(supply, &mut set_up.config, setting) {
                return Err(TraceFault::NoMemory);
            }
        }
        if came == Came::Read {
            self.input.keep(line)?;
            self.answer(b"ok");
        }
        Ok(Heard::Answered)
    }
}

impl<R: BufRead + Drop, S: Sink> Talk<'_, R, S> {
    /// The line that was kept last is taken back.
    pub(crate) fn take_back(&mut self) -> Result<Heard, TraceFault> {
        let mut line = Vec::new(self.alloc);
        if !self.input.take_back(&mut line)? {
            return self.refuse(b"there is no line to take back");
        }
        if !(self.sink.put(line.as_slice()) && self.sink.put(b" is undone\n")) {
            self.talked.whole = false;
        }
        Ok(Heard::Back)
    }

    /// A line that is not performed, and why.
    pub(crate) fn refuse(&mut self, why: &[u8]) -> Result<Heard, TraceFault> {
        self.talked.bad = true;
        if !self.sink.put(b"bad line: ") {
            self.talked.whole = false;
        }
        self.answer(why);
        Ok(Heard::Answered)
    }

    /// A line that is no question and no turn, and begins like one.
    pub(crate) fn refuse_asking(&mut self, line: &[u8]) -> Result<Heard, TraceFault> {
        self.refuse(
            b"?, ? due, ? scsw S, ? unit U, ? wires S, turn S N and back are what can be asked",
        )?;
        self.end_question(line);
        Ok(Heard::Answered)
    }

    /// What begins with a question mark is answered with an empty line at its end, also where it is bad.
    fn end_question(&mut self, line: &[u8]) {
        if line.starts_with(b"?") {
            self.answer(b"");
        }
    }

    /// Whether a line is good after those that were kept; what is wrong with it is told.
    pub(crate) fn is_good<M: CoreSupply>(
        &mut self,
        supply: &mut M,
        checker: &mut Checker,
        count: u64,
        line: &[u8],
    ) -> Result<bool, TraceFault> {
        let number = count.saturating_add(1);
        match checker.line(self.alloc, supply, number, line)? {
            None => Ok(true),
            Some(bad) => {
                self.talked.bad = true;
                if !(self.sink.put(b"bad line: ")
                    && put_fault(self.sink, &bad)
                    && self.sink.put(b"\n"))
                {
                    self.talked.whole = false;
                }
                self.end_question(line);
                Ok(false)
            }
        }
    }
}

impl<R: BufRead + Drop, S: Sink> Talk<'_, R, S> {
    /// Opens the machine that was set up, and talks with it.
    fn open<M: CoreSupply>(
        &mut self,
        supply: &mut M,
        set_up: SetUp,
        came: Came,
        line: &[u8],
    ) -> Result<Turn, TraceFault> {
        let parts = Parts::new_with(self.alloc, supply, &set_up.config)?;
        self.open_named::<Brand, M>(supply, set_up, parts, came, line)
    }

    /// Talks with a machine of this name.
    fn open_named<J: MachineBrand, M: CoreSupply>(
        &mut self,
        supply: &mut M,
        opened: SetUp,
        parts: Parts,
        came: Came,
        line: &[u8],
    ) -> Result<Turn, TraceFault>
        requires named { parts.name ≡ J.name }
        requires set_up { J.setup ≡ opened.config }
        requires directory { parts.name.directory ≡ directory_of (opening_of opened.config) }
        requires serials { parts.serials ≡ all_serials (opening_of opened.config) }
    {
        let mut partner = partner_of::<J, M>(self.alloc, supply, opened, parts)?;
        self.talk_with(supply, &mut partner, came, line)
    }
}

/// A machine of this name that is to be talked with.
fn partner_of<J: MachineBrand, M: CoreSupply>(
    alloc: Global,
    supply: &mut M,
    opened: SetUp,
    parts: Parts,
) -> Result<Partner<J>, TraceFault>
    requires named { parts.name ≡ J.name }
    requires set_up { J.setup ≡ opened.config }
    requires directory { parts.name.directory ≡ directory_of (opening_of opened.config) }
    requires serials { parts.serials ≡ all_serials (opening_of opened.config) }
{
    let SetUp {
        checker,
        config,
        count,
    } = opened;
    let tracer = Tracer::<J>::new(alloc, supply, config, parts)?;
    Ok(Partner {
        checker,
        count,
        stepping: Stepping::new(alloc, tracer),
    })
}
