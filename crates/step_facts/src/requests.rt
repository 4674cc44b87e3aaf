//! The requests for I/O interruptions that wait: of each subchannel the subclass of its request.

ghost use Rattle.std.specs.Prelude.{◌≡◌, OnErr, OnOk, true};

use crate::step::{Step, StepFacts};
use chan_events::event::{Event, Instruction};
use chan_events::reply::{KeptReply, Reply};
use chan_model::answer::Answer;
use channel_config::names::SubchannelId;
use memory::{Supply, push};
use scsw_irb::code::IntCode;
use std::alloc::{AllocError, Global};
use step_records::record::{Fact, RequestChange};

/// Of each subchannel the interruption subclass of its request, where one waits.
#[derive(Drop)]
pub struct Requests {
    standing: Vec<Option<u8>>,
}

/// Whether an instruction with this reply drops the request of its subchannel: TEST with code 0 and 1, and CLEAR with code 0
/// (SA22-7832, chapter 16).
fn drops(instruction: Instruction, reply: &KeptReply) -> bool {
    let (Reply::Code(answer) | Reply::Status { answer, .. }) = reply else {
        return false;
    };
    match instruction {
        Instruction::Tsch { .. } => matches!(answer, Answer::Zero(_) | Answer::One(_)),
        Instruction::Csch { .. } => matches!(answer, Answer::Zero(_)),
        _ => false,
    }
}

#[inline(never)]
fn push_request<S: Supply>(
    supply: &mut S,
    subchannel: usize,
    subclass: u8,
    change: RequestChange,
    facts: &mut StepFacts,
) -> Result<(), AllocError>
    ensures kept { facts.new ≡ facts.old }
    ensures unrefused { OnOk result (S.refused supply.new ≡ S.refused supply.old) }
    ensures memory { OnErr result (S.refused supply.new ≡ true) }
{
    facts.push(
        supply,
        Fact::Request {
            subchannel,
            subclass,
            change,
        },
    )
}

impl Requests {
    /// No request waits, of so many subchannels.
    pub fn none<S: Supply>(
        alloc: Global,
        supply: &mut S,
        count: usize,
    ) -> Result<Requests, AllocError>
        ensures unrefused { OnOk result (S.refused supply.new ≡ S.refused supply.old) }
        ensures memory { OnErr result (S.refused supply.new ≡ true) }
    {
        let mut standing = Vec::new(alloc);
        for _subchannel in 0..count {
            push(supply, &mut standing, None)?;
        }
        Ok(Requests { standing })
    }

    /// The subclasses of which a request waits: subclass 0 leftmost.
    pub fn subclasses(&self) -> u8 {
        let mut mask = 0u8;
        for subclass in &self.standing {
            if let Some(subclass) = subclass {
                mask = mask | (0x80 >> (*subclass % 8));
            }
        }
        mask
    }

    /// The requests that a step dropped, took out and posted, in this order.
    pub(crate) fn add_changes<S: Supply>(
        &mut self,
        supply: &mut S,
        step: &Step<'_>,
        facts: &mut StepFacts,
    ) -> Result<(), AllocError>
        ensures kept { facts.new ≡ facts.old }
        ensures unrefused { OnOk result (S.refused supply.new ≡ S.refused supply.old) }
        ensures memory { OnErr result (S.refused supply.new ≡ true) }
    {
        match (step.event().0, step.reply().0) {
            (Event::SystemReset, _) => self.drop_all(supply, facts)?,
            (Event::Execute { instruction, .. }, reply) if drops(*instruction, reply) => {
                if let Some(subchannel) = step.subchannel {
                    self.take(supply, subchannel, RequestChange::Dropped, facts)?;
                }
            }
            (_, Reply::Interruption(Some(code))) => self.take_out(supply, step, *code, facts)?,
            _ => {}
        }
        self.post_all(supply, step, facts)
    }

    /// The request of a subchannel goes, where there is one.
    fn take<S: Supply>(
        &mut self,
        supply: &mut S,
        subchannel: usize,
        change: RequestChange,
        facts: &mut StepFacts,
    ) -> Result<(), AllocError>
        ensures kept { facts.new ≡ facts.old }
        ensures unrefused { OnOk result (S.refused supply.new ≡ S.refused supply.old) }
        ensures memory { OnErr result (S.refused supply.new ≡ true) }
    {
        let Some(standing) = self.standing.as_mut_slice().get_mut(subchannel) else {
            return Ok(());
        };
        let Some(subclass) = *standing else {
            return Ok(());
        };
        *standing = None;
        push_request(supply, subchannel, subclass, change, facts)
    }

    /// All requests go.
    fn drop_all<S: Supply>(
        &mut self,
        supply: &mut S,
        facts: &mut StepFacts,
    ) -> Result<(), AllocError>
        ensures kept { facts.new ≡ facts.old }
        ensures unrefused { OnOk result (S.refused supply.new ≡ S.refused supply.old) }
        ensures memory { OnErr result (S.refused supply.new ≡ true) }
    {
        for subchannel in 0..self.standing.len() {
            self.take(supply, subchannel, RequestChange::Dropped, facts)?;
        }
        Ok(())
    }

    /// TEST PENDING INTERRUPTION takes out the request of this code.
    fn take_out<S: Supply>(
        &mut self,
        supply: &mut S,
        step: &Step<'_>,
        code: IntCode,
        facts: &mut StepFacts,
    ) -> Result<(), AllocError>
        ensures kept { facts.new ≡ facts.old }
        ensures unrefused { OnOk result (S.refused supply.new ≡ S.refused supply.old) }
        ensures memory { OnErr result (S.refused supply.new ≡ true) }
    {
        let id = SubchannelId {
            set: code.set,
            number: code.subchannel,
        };
        match step.parties.subchannel_of_id(id) {
            Some(subchannel) => self.take(supply, subchannel, RequestChange::TakenOut, facts),
            None => Ok(()),
        }
    }

    /// Where status was made and no request waits, one is posted, of the subclass that the subchannel has.
    fn post_all<S: Supply>(
        &mut self,
        supply: &mut S,
        step: &Step<'_>,
        facts: &mut StepFacts,
    ) -> Result<(), AllocError>
        ensures kept { facts.new ≡ facts.old }
        ensures unrefused { OnOk result (S.refused supply.new ≡ S.refused supply.old) }
        ensures memory { OnErr result (S.refused supply.new ≡ true) }
    {
        let count = step.before.subchannels.len();
        for subchannel in 0..count.min(step.after.subchannels.len()) {
            let before = step.before.subchannels[subchannel].rest().serials;
            let after = &step.after.subchannels[subchannel];
            if before.made < after.rest().serials.made {
                self.post(supply, subchannel, after.subclass(), facts)?;
            }
        }
        Ok(())
    }

    /// A request is posted where none waits.
    fn post<S: Supply>(
        &mut self,
        supply: &mut S,
        subchannel: usize,
        subclass: u8,
        facts: &mut StepFacts,
    ) -> Result<(), AllocError>
        ensures kept { facts.new ≡ facts.old }
        ensures unrefused { OnOk result (S.refused supply.new ≡ S.refused supply.old) }
        ensures memory { OnErr result (S.refused supply.new ≡ true) }
    {
        match self.standing.as_mut_slice().get_mut(subchannel) {
            Some(standing) if standing.is_none() => {
                *standing = Some(subclass);
                push_request(supply, subchannel, subclass, RequestChange::Posted, facts)
            }
            _ => Ok(()),
        }
    }
}
