//! What came of the instructions of CPUs that race.

ghost use Rattle.std.specs.Prelude.{◌≡◌, ◌^◌};
ghost use Rattle.script_runner.specs.Race as spec;
ghost use Rattle.script_runner.specs.Race.{IsBelow};

use chan_events::reply::Reply;
use chan_model::answer::ConditionCode;
use chan_model::fault::Fault;
use script_text::RaceCount;

/// How many instructions answered each condition code, how many were accepted, and whether any was refused.
#[derive(Clone, Copy)]
pub struct Tally {
    pub zero: u64,
    pub one: u64,
    pub two: u64,
    pub three: u64,
    pub entries: u64,
    pub refused: bool,
}

impl Tally {
    /// Of no instruction.
    pub fn none() -> Tally
        ensures { result ≡ spec.no_tally }
    {
        Tally {
            zero: 0,
            one: 0,
            two: 0,
            three: 0,
            entries: 0,
            refused: false,
        }
    }

    /// One more instruction, which came to this. Where it was refused no code and no entry is counted.
    pub fn count(&mut self, came: &Result<Reply, Fault>)
        requires { IsBelow (2 ^ 63) self.old }
        ensures { self.new ≡ spec.tally_after self.old came.now }
    {
        match came {
            Ok(reply) => self.count_code(code_in(reply)),
            Err(_) => self.refused = true,
        }
    }

    /// One more entry, with the condition code in it.
    fn count_code(&mut self, code: Option<ConditionCode>)
        requires { IsBelow (2 ^ 63) self.old }
        ensures { self.new ≡ spec.counted self.old code }
    {
        self.entries += 1;
        match code {
            Some(ConditionCode::Zero) => self.zero += 1,
            Some(ConditionCode::One) => self.one += 1,
            Some(ConditionCode::Two) => self.two += 1,
            Some(ConditionCode::Three) => self.three += 1,
            None => {}
        }
    }

    /// What is told of a race, with what the audit answered.
    pub fn told(self, audited: bool) -> RaceCount
        ensures { result ≡ spec.count_of self audited }
    {
        RaceCount {
            zero: self.zero,
            one: self.one,
            two: self.two,
            three: self.three,
            entries: self.entries,
            audited,
        }
    }

    /// What came of these and those.
    pub fn add(&mut self, other: Tally)
        requires { IsBelow (2 ^ 62) self.old × IsBelow (2 ^ 62) other }
        ensures { self.new ≡ spec.plus self.old other }
    {
        self.zero += other.zero;
        self.one += other.one;
        self.two += other.two;
        self.three += other.three;
        self.entries += other.entries;
        self.refused = self.refused | other.refused;
    }
}

/// The condition code in a reply to TEST SUBCHANNEL.
fn code_in(reply: &Reply) -> Option<ConditionCode>
    ensures { result ≡ spec.code_in reply.now }
{
    match reply {
        Reply::Code(answer) | Reply::Status { answer, .. } => Some(answer.code()),
        _ => None,
    }
}
