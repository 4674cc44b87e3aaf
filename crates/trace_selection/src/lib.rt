//! Which records of a script are shown: those of some lines, and of some subchannels with their units and their channel paths.
#![tactic(auto)]

ghost use Rattle.std.specs.Prelude.{◌≡◌, ◌==◌, ◌&&◌};
ghost use Rattle.std.specs.List.{list_any};
ghost use Rattle.step_records.specs.Lines.{line_of};
ghost use Rattle.trace_selection.specs.Selected as spec;

mod subject;

use crate::subject::{Subject, subject_of_line};
use channel_config::names::{SubchannelId, subchannel_named};
use channel_config::parts::SubchannelSetup;
use step_records::parties::Parties;
use step_records::record::{Fact, Record};
use step_records::script_lines::ScriptLines;
use step_records::trace::Trace;

/// What of a script is shown: its lines from one to another, and the subchannels of these subsystem-identification words, their units
/// and their channel paths; all where none is named.
#[derive(Drop)]
pub struct Selection {
    pub first: u64,
    pub last: u64,
    pub subchannels: Vec<u32>,
}

/// Whether no word is there, so that all is shown.
fn names_none(words: &[u32]) -> bool
    ensures { result ≡ spec.names_none words.now }
{
    match words {
        [] => true,
        [_, ..] => false,
    }
}

/// Whether a word names a subchannel, in whatever set it is.
fn names(word: u32, id: SubchannelId) -> bool
    ensures { result ≡ spec.names word id }
{
    match subchannel_named(4, word) {
        Some(found) => found.set == id.set && found.number == id.number,
        None => false,
    }
}

/// Whether one of these words names a subchannel.
fn some_name(words: &[u32], id: SubchannelId) -> bool
    ensures { result ≡ list_any (λ word. spec.names word id) words.now }
{
    words.iter().any(|word| names(*word, id))
}

/// Whether one of these subchannels has this unit and is shown.
fn some_has_unit(words: &[u32], setups: &[SubchannelSetup], unit: usize) -> bool
    ensures { result ≡ list_any (λ setup. (setup.unit == unit) && spec.has_subchannel words.now setup.id) setups.now }
{
    setups.iter().any(|setup| usize::from(setup.unit) == unit && is_shown(words, setup.id))
}

/// Whether a subchannel has the channel path of this identifier.
fn reaches(setup: &SubchannelSetup, chpid: u32) -> bool
    ensures { result ≡ list_any (λ own. own == chpid) setup.now.paths }
{
    setup
        .paths
        .as_slice()
        .iter()
        .any(|own| u32::from(*own) == chpid)
}

/// Whether one of these subchannels has this channel path and is shown.
fn some_has_path(words: &[u32], setups: &[SubchannelSetup], chpid: u32) -> bool
    ensures { result ≡ list_any (λ setup. spec.has_subchannel words.now setup.id && list_any (λ own. own == chpid) setup.paths) setups.now }
{
    setups
        .iter()
        .any(|setup| is_shown(words, setup.id) && reaches(setup, chpid))
}

/// Whether a word is among these.
fn has_word(words: &[u32], word: u32) -> bool
    ensures { result ≡ list_any (λ own. own == word) words.now }
{
    words.iter().any(|own| *own == word)
}

/// Whether a subchannel is shown.
fn is_shown(words: &[u32], id: SubchannelId) -> bool
    ensures { result ≡ spec.has_subchannel words.now id }
{
    names_none(words) || some_name(words, id)
}

impl Selection {
    /// Whether a subchannel of this set-up is shown.
    fn has(&self, setup: &SubchannelSetup) -> bool
        ensures { result ≡ spec.has_subchannel self.now.subchannels.items setup.now.id }
    {
        is_shown(self.subchannels.as_slice(), setup.id)
    }

    /// Whether the subchannel at this index is shown.
    fn has_subchannel(&self, parties: &Parties, index: usize) -> bool
        ensures { result ≡ spec.has_index self.now.subchannels.items parties.now.subchannels.items index }
    {
        match parties.subchannels.as_slice().get(index) {
            Some(setup) => self.has(setup),
            None => true,
        }
    }

    /// Whether the unit at this index is shown: one of its subchannels is.
    fn has_unit(&self, parties: &Parties, index: usize) -> bool
        ensures { result ≡ spec.has_unit self.now.subchannels.items parties.now.subchannels.items index }
    {
        let words = self.subchannels.as_slice();
        names_none(words) || some_has_unit(words, parties.subchannels.as_slice(), index)
    }

    /// Whether the channel path of this identifier is shown: one of its subchannels is.
    fn has_path(&self, parties: &Parties, chpid: u32) -> bool
        ensures { result ≡ spec.has_path self.now.subchannels.items parties.now.subchannels.items chpid }
    {
        let words = self.subchannels.as_slice();
        names_none(words) || some_has_path(words, parties.subchannels.as_slice(), chpid)
    }

    /// Whether a line that is about this is shown.
    fn has_subject(&self, parties: &Parties, subject: Subject) -> bool
        ensures { result ≡ spec.has_subject self.now.subchannels.items parties.now.subchannels.items subject }
    {
        let words = self.subchannels.as_slice();
        match subject {
            Subject::All => true,
            Subject::Subchannel(word) => names_none(words) || has_word(words, word),
            Subject::Unit(unit) => self.has_unit(parties, unit as usize),
            Subject::ChannelPath(chpid) => self.has_path(parties, chpid),
        }
    }

    /// Whether it leaves nothing out: it begins with the first line, has no last one, and names no subchannel.
    fn has_all(&self) -> bool
        ensures { result ≡ spec.has_all self.now }
    {
        self.first <= 1 && self.last == u64::MAX && names_none(self.subchannels.as_slice())
    }

    /// Whether a line is shown, by its number.
    fn has_line(&self, line: u64) -> bool
        ensures { result ≡ spec.has_line self.now line }
    {
        (self.first <= 1 || line >= self.first) && (self.last == u64::MAX || line <= self.last)
    }

    /// Whether a fact of the line of this number is shown, by what it is about.
    fn has_fact(&self, text: &ScriptLines, parties: &Parties, line: u64, fact: &Fact) -> bool
        ensures { result ≡ spec.has_fact self.now.subchannels.items parties.now.subchannels.items (line_of text.now line) fact.now }
    {
        match fact {
            Fact::Event | Fact::Found { .. } | Fact::Answer(_) | Fact::Refused(_) => {
                self.has_subject(parties, subject_of_line(text.line(line)))
            }
            Fact::PathState { chpid, .. } => self.has_path(parties, u32::from(*chpid)),
            Fact::Report { crw, .. } => self.has_path(parties, u32::from(crw.path)),
            Fact::Signal { wire, .. } => self.has_subchannel(parties, wire.subchannel),
            Fact::Hold { subchannel, .. }
            | Fact::Enabled { subchannel, .. }
            | Fact::Mask { subchannel, .. }
            | Fact::Functions { subchannel, .. }
            | Fact::Orb { subchannel, .. }
            | Fact::Program { subchannel, .. }
            | Fact::Ccw { subchannel, .. }
            | Fact::Copy { subchannel, .. }
            | Fact::StatusMade { subchannel, .. }
            | Fact::StatusCleared { subchannel, .. }
            | Fact::Request { subchannel, .. } => self.has_subchannel(parties, *subchannel),
            Fact::Owner { unit, .. }
            | Fact::Command { unit, .. }
            | Fact::AttentionTaken { unit, .. }
            | Fact::Device { unit, .. } => self.has_unit(parties, *unit),
        }
    }

    /// Whether a record is shown: its line is, and what it is about, which is all where no subchannel is named.
    fn has_record(&self, text: &ScriptLines, parties: &Parties, told: &Record) -> bool
        ensures { result ≡ spec.has_record self.now text.now parties.now told.now }
    {
        self.has_line(told.line)
            && (names_none(self.subchannels.as_slice())
                || self.has_fact(text, parties, told.line, &told.fact))
    }

    /// Leaves of a trace the records that are shown, in their order; it takes no memory.
    pub fn select(&self, trace: &mut Trace)
        ensures records { trace.new.records.items ≡ spec.shown self.now trace.old.text trace.old.parties trace.old.records.items }
        ensures text { trace.new.text ≡ trace.old.text }
        ensures parties { trace.new.parties ≡ trace.old.parties }
    {
        if self.has_all() {
            return;
        }
        let text = &trace.text;
        let parties = &trace.parties;
        trace
            .records
            .retain(|told| self.has_record(text, parties, told));
    }
}
