//! The part of a talk at a machine that is opened.

use crate::asking::{Asked, Question, asked_of};
use crate::due::DueLine;
use crate::input::Came;
use crate::notes::put_notes;
use crate::queries::{Looked, put_answer_to};
use crate::spoken::action_of;
use crate::stepping::Stepping;
use crate::talk::{Heard, Talk, Turn};
use core_lock::naming::MachineBrand;
use core_lock::supplies::CoreSupply;
use line_reasons::checker::Checker;
use record_text::number::put_hexadecimal;
use record_text::refusal::put_refusal_reason;
use script::readable::has_words;
use script_rows::slots::ActionSlot;
use script_text::held::Held;
use script_text::{ActionResult, put_outcome};
use std::io::BufRead;
use step_records::parties::Parties;
use step_records::record::{Fact, Record};
use streams::Sink;
use trace_explain::{found_by, put_code_note};
use trace_runs::TraceFault;
use trace_runs::tracer::Stepped;

/// A machine that is talked with: what was said so far, and how many lines were kept.
#[derive(Drop)]
pub(crate) struct Partner<J: MachineBrand> {
    pub(crate) checker: Checker,
    pub(crate) count: u64,
    pub(crate) stepping: Stepping<J>,
}

impl<J: MachineBrand> Partner<J> {
    /// Performs one line that is due for a subchannel and its unit, and answers which; None where none is.
    fn perform_due_for<M: CoreSupply>(
        &mut self,
        supply: &mut M,
        subchannel: u32,
    ) -> Result<Option<DueLine>, TraceFault> {
        let due = self.stepping.due_for(supply, subchannel)?;
        let number = self.count.saturating_add(1);
        self.stepping.perform_due(supply, number, due.as_slice())
    }
}

/// What a line came to, as a script's run prints it behind the number of the line.
fn put_outcome_of<S: Sink>(sink: &mut S, records: &[Record]) -> bool {
    for record in records {
        if let Fact::Answer(outcome) = &record.fact {
            return put_outcome(sink, outcome);
        }
    }
    true
}

/// What the code of the instruction of a line says, where the records tell of one.
fn put_code_of<S: Sink>(sink: &mut S, parties: &Parties, line: &[u8], records: &[Record]) -> bool {
    let mut found = None;
    for record in records {
        if let Fact::Answer(Ok(ActionResult::Reply(reply))) = &record.fact {
            return put_code_note(sink, line, found, reply);
        }
        found = found_by(parties, &record.fact);
    }
    true
}

/// Why a line was refused, two blanks before it, where the records tell it.
fn put_reason_of<S: Sink>(sink: &mut S, parties: &Parties, records: &[Record]) -> bool {
    for record in records {
        if let Fact::Refused(refusal) = &record.fact {
            return sink.put(b"  ") && put_refusal_reason(sink, parties, refusal);
        }
    }
    true
}

impl<R: BufRead + Drop, S: Sink> Talk<'_, R, S> {
    /// Performs the first action, and then talks on until a line is taken back or no line comes any more.
    pub(crate) fn talk_with<J: MachineBrand, M: CoreSupply>(
        &mut self,
        supply: &mut M,
        partner: &mut Partner<J>,
        came: Came,
        first: &[u8],
    ) -> Result<Turn, TraceFault> {
        self.act(supply, partner, came, first)?;
        let mut line = Vec::new(self.alloc);
        self.hear_all(supply, partner, &mut line)
    }

    /// Takes lines until one is taken back or no line comes any more; each is written into a list.
    fn hear_all<J: MachineBrand, M: CoreSupply>(
        &mut self,
        supply: &mut M,
        partner: &mut Partner<J>,
        line: &mut Vec<u8>,
    ) -> Result<Turn, TraceFault> {
        for _ in 0..u64::MAX {
            if let Some(turn) = self.hear_next(supply, partner, line)? {
                return Ok(turn);
            }
        }
        Ok(Turn::Ended)
    }

    /// Takes the next line: how the talk ends by it, where it does.
    fn hear_next<J: MachineBrand, M: CoreSupply>(
        &mut self,
        supply: &mut M,
        partner: &mut Partner<J>,
        line: &mut Vec<u8>,
    ) -> Result<Option<Turn>, TraceFault> {
        let came = self.input.next(line)?;
        if self.is_over(came) {
            return Ok(Some(Turn::Ended));
        }
        match self.hear(supply, partner, came, line.as_slice())? {
            Heard::Back => Ok(Some(Turn::Back)),
            Heard::Answered | Heard::Acts => Ok(None),
        }
    }

    /// Takes a line at the machine.
    fn hear<J: MachineBrand, M: CoreSupply>(
        &mut self,
        supply: &mut M,
        partner: &mut Partner<J>,
        came: Came,
        line: &[u8],
    ) -> Result<Heard, TraceFault> {
        if came == Came::Read {
            match asked_of(line) {
                Some(Asked::Script) => {}
                Some(Asked::Back) => return self.take_back(),
                Some(Asked::Question(question)) => return self.tell(supply, partner, question),
                Some(Asked::Turn { subchannel, most }) => {
                    return self.turn(supply, partner, subchannel, most);
                }
                None => return self.refuse_asking(line),
            }
        }
        if !self.is_good(supply, &mut partner.checker, partner.count, line)? {
            return Ok(Heard::Answered);
        }
        partner.count = partner.count.saturating_add(1);
        if has_words(line) {
            self.act(supply, partner, came, line)?;
        } else if came == Came::Read {
            self.input.keep(line)?;
            self.answer(b"ok");
        }
        Ok(Heard::Answered)
    }

    /// Performs the action of a line, and answers it where it was read.
    fn act<J: MachineBrand, M: CoreSupply>(
        &mut self,
        supply: &mut M,
        partner: &mut Partner<J>,
        came: Came,
        line: &[u8],
    ) -> Result<(), TraceFault> {
        let mut slot = ActionSlot::new();
        if !action_of(self.alloc, supply, line, &mut slot)? {
            return Ok(());
        }
        let number = partner.count;
        let stepped = partner
            .stepping
            .perform(supply, number, &slot.kept, slot.bytes())?;
        if came == Came::Read {
            self.input.keep(line)?;
            self.tell_outcome(partner, stepped, line);
        }
        Ok(())
    }

    /// Answers an action: what a script's run prints, and behind two blanks what its code says and what came of it, or why it was
    /// refused.
    fn tell_outcome<J: MachineBrand>(
        &mut self,
        partner: &Partner<J>,
        stepped: Stepped,
        line: &[u8],
    ) {
        let records = partner.stepping.records();
        let parties = partner.stepping.tracer().parties();
        let whole = put_outcome_of(self.sink, records)
            && match stepped {
                Stepped::Refused(_) => {
                    self.talked.refused = true;
                    put_reason_of(self.sink, parties, records)
                }
                Stepped::Accepted | Stepped::Looked => {
                    put_code_of(self.sink, parties, line, records)
                        && put_notes(self.sink, parties, records)
                }
            };
        if !(whole && self.sink.put(b"\n")) {
            self.talked.whole = false;
        }
    }

    /// Answers a look.
    fn tell<J: MachineBrand, M: CoreSupply>(
        &mut self,
        supply: &mut M,
        partner: &Partner<J>,
        question: Question,
    ) -> Result<Heard, TraceFault> {
        let due = partner.stepping.due(supply)?;
        let looked = Looked {
            sight: partner.stepping.tracer().sight(),
            waiting: partner.stepping.tracer().waiting(),
            parties: partner.stepping.tracer().parties(),
        };
        if !put_answer_to(self.sink, &looked, due.as_slice(), question) {
            self.talked.whole = false;
        }
        Ok(Heard::Answered)
    }

    /// Performs lines that are due for a subchannel and its unit, so many at most, and answers how many: `moved 5` where so many were,
    /// `quiet 5` where nothing was due after them.
    fn turn<J: MachineBrand, M: CoreSupply>(
        &mut self,
        supply: &mut M,
        partner: &mut Partner<J>,
        subchannel: u32,
        most: u32,
    ) -> Result<Heard, TraceFault> {
        let parties = partner.stepping.tracer().parties();
        if parties.subchannel_named(subchannel).is_none() {
            return self.refuse(b"no such subchannel");
        }
        for count in 0..most {
            if !self.turn_once(supply, partner, subchannel)? {
                self.tell_count(b"quiet ", count);
                return Ok(Heard::Answered);
            }
        }
        self.tell_count(b"moved ", most);
        Ok(Heard::Answered)
    }

    /// Performs one line that is due for a subchannel and its unit; false where none is.
    fn turn_once<J: MachineBrand, M: CoreSupply>(
        &mut self,
        supply: &mut M,
        partner: &mut Partner<J>,
        subchannel: u32,
    ) -> Result<bool, TraceFault> {
        match partner.perform_due_for(supply, subchannel)? {
            Some(line) => {
                self.keep_due(partner, line)?;
                Ok(true)
            }
            None => Ok(false),
        }
    }

    /// Keeps a line that was due and was performed.
    fn keep_due<J: MachineBrand>(
        &mut self,
        partner: &mut Partner<J>,
        line: DueLine,
    ) -> Result<(), TraceFault> {
        partner.count = partner.count.saturating_add(1);
        let mut text = Held::new();
        let _whole = line.put(&mut text);
        self.input.keep(text.bytes())
    }

    /// Answers a count, in hexadecimal digits.
    fn tell_count(&mut self, word: &[u8], count: u32) {
        if !(self.sink.put(word)
            && put_hexadecimal(self.sink, u64::from(count))
            && self.sink.put(b"\n"))
        {
            self.talked.whole = false;
        }
    }
}
