//! What the condition code of an instruction says, by the line that asks for it and by what it found.

use chan_events::reply::Reply;
use record_text::codes::code_of;
use seen_answers::instruction::{CpuAct, act_of};
use step_records::parties::Parties;
use step_records::record::Fact;
use streams::Sink;
use word_names::{Found, put_code_words};

/// What an instruction found of its subchannel, by the fact that tells it; None where the fact tells something else.
pub fn found_by(parties: &Parties, fact: &Fact) -> Option<Found> {
    let Fact::Found {
        subchannel,
        control,
        enabled,
    } = fact
    else {
        return None;
    };
    let setup = parties.subchannels.as_slice().get(*subchannel)?;
    Some(Found {
        subchannel: u32::from(setup.id.number),
        control: *control,
        enabled: *enabled,
    })
}

/// What the condition code of a reply says, two blanks before it; nothing where the line is no instruction, or its code says no
/// more than its number.
pub fn put_code_note<S: Sink>(
    sink: &mut S,
    line: &[u8],
    found: Option<Found>,
    reply: &Reply,
) -> bool {
    match (act_of(line), code_of(reply)) {
        (Some(CpuAct::Executes(instruction)), Some(code)) => {
            put_code_words(sink, instruction, code, found)
        }
        _ => true,
    }
}
