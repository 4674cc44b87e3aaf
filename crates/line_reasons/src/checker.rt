//! Lines checked one by one.

ghost use Rattle.std.specs.Prelude.{◌≡◌, ◌&&◌, true, false, not, Some, None, Ok, IfOk, IfSome, IfNone, OnOk, OnErr, option_map};
ghost use Rattle.script.specs.Scripts.{fault};
ghost use Rattle.line_faults.specs.Reasons.{rule_of, config_rule_of, acting_of, IsRefusal};
ghost use Rattle.line_reasons.specs.Verdicts as spec;

use crate::verdict::{Broken, Saying, Spoken, look_at};
use channel_config::config::{Config, ConfigFault, ConfigRule};
use line_faults::bad_words::bad_word;
use line_faults::configuration::{other, refused};
use line_faults::counts::wrong_count;
use line_faults::reason::{BadLine, Reason};
use line_faults::unknown::{not_storage, unknown};
use line_faults::writing::{Remark, at, whole};
use memory::Supply;
use script::pieces::short_pieces_to;
use script_rows::settings::{Setting, configure};
use script_rows::words::LineRule;
use std::alloc::{AllocError, Global};
use std::marker::Model;

/// What a bad line counts for.
#[derive(Clone, Copy)]
pub enum Checking {
    /// It stays in the text: it may be the first line with words, set up or act, as far as it can be read.
    Text,
    /// It is left out, and counts for nothing.
    Dialogue,
}

/// Checks the lines of a script one by one. A race is bad in each.
#[derive(Drop)]
pub struct Checker {
    checking: Checking,
    begun: bool,
    first_action: Option<u64>,
    config: Config,
}

impl Model for Checker {
    ghost use Rattle.line_reasons.specs.Verdicts.{Checked};

    ghost Value = { Checked };

    ghost view = { λ c. record { checking = c.checking; begun = c.begun; first_action = c.first_action; setup = c.config } };
}

/// What a setting breaks that refuses this: after an action it is too late, whatever it sets up.
fn late_or(first_action: Option<u64>, refused: Option<Broken>) -> Option<Broken>
    ensures { result ≡ spec.late_or first_action refused }
{
    match first_action {
        Some(acting) => Some(Broken::AfterAction(acting)),
        None => refused,
    }
}

impl Checker {
    /// No line was checked.
    pub fn new(alloc: Global, checking: Checking) -> Self
        ensures { result ≡ spec.unchecked checking }
    {
        Checker {
            checking,
            begun: false,
            first_action: None,
            config: Config::new(alloc),
        }
    }

    /// The configuration that the lines so far have made.
    pub fn config(&self) -> &Config
        ensures { result.now ≡ self.now.setup }
    {
        &self.config
    }

    /// The same, for good.
    pub fn into_config(self) -> Config
        ensures { result ≡ self.setup }
    {
        self.config
    }

    /// Takes a setting, and what it breaks.
    fn set<S: Supply>(
        &mut self,
        supply: &mut S,
        setting: &Setting,
    ) -> Result<Option<Broken>, AllocError>
        ensures broken { IfOk result (λ broken. broken ≡ spec.saying_breaks self.old (Ok (Saying.Sets setting.now))) }
        ensures next { OnOk result (self.new ≡ spec.with_setting self.old setting.now) }
        ensures kept { OnErr result (self.new ≡ self.old) }
        ensures memory { OnErr result (S.refused supply.new ≡ true) }
    {
        match configure(supply, &mut self.config, setting) {
            Ok(()) => Ok(late_or(self.first_action, None)),
            Err(ConfigFault::Rule(rule)) => Ok(late_or(
                self.first_action,
                Some(Broken::Configuration(rule)),
            )),
            Err(ConfigFault::NoMemory) => Err(AllocError),
        }
    }

    /// The line of this number acts.
    fn act(&mut self, number: u64)
        ensures { self.new ≡ spec.taken self.old number (Ok Saying.Acts) }
    {
        if self.first_action.is_none() {
            self.first_action = Some(number);
        }
    }

    /// Takes what a line says, and what that breaks.
    fn take<S: Supply>(
        &mut self,
        supply: &mut S,
        number: u64,
        said: &Result<Saying, LineRule>,
    ) -> Result<Option<Broken>, AllocError>
        ensures broken { IfOk result (λ broken. broken ≡ spec.saying_breaks self.old said.now) }
        ensures next { OnOk result (self.new ≡ spec.taken self.old number said.now) }
        ensures kept { OnErr result (self.new ≡ self.old) }
        ensures memory { OnErr result (S.refused supply.new ≡ true) }
    {
        match said {
            Err(rule) => Ok(Some(Broken::ByItself(*rule))),
            Ok(Saying::Nothing) => Ok(None),
            Ok(Saying::Sets(setting)) => self.set(supply, setting),
            Ok(Saying::Acts) => {
                self.act(number);
                Ok(None)
            }
            Ok(Saying::Races) => {
                self.act(number);
                Ok(Some(Broken::Race))
            }
        }
    }

    /// Whether a line has words before the `storage` line.
    fn is_too_early(&self, spoken: &Spoken) -> bool
        ensures { result ≡ (spoken.now.worded && (not self.now.begun && not spoken.now.storage)) }
    {
        spoken.worded && !self.begun && !spoken.storage
    }

    /// Takes a line that counts, bad or not.
    fn count<S: Supply>(
        &mut self,
        supply: &mut S,
        number: u64,
        spoken: &Spoken,
    ) -> Result<Option<Broken>, AllocError>
        ensures broken { IfOk result (λ broken. broken ≡ spec.breaks self.old spoken.now) }
        ensures next { OnOk result (self.new ≡ spec.counted self.old number spoken.now) }
        ensures kept { OnErr result (self.new ≡ self.old) }
        ensures memory { OnErr result (S.refused supply.new ≡ true) }
    {
        let too_early = self.is_too_early(spoken);
        let broken = self.take(supply, number, &spoken.said)?;
        self.begun = self.begun || spoken.worded;
        Ok(if too_early {
            Some(Broken::NotStorage)
        } else {
            broken
        })
    }

    /// What a line breaks that is left out before it is taken.
    fn left_out(&self, spoken: &Spoken) -> Option<Broken>
        ensures broken { IfSome result (λ broken. Some broken ≡ spec.breaks self.now spoken.now) }
        ensures taken { IfNone result (spec.breaks self.now spoken.now ≡ spec.saying_breaks self.now spoken.now.said) }
        ensures stays { IfNone result (spec.too_late spoken.now.said self.now.first_action ≡ None) }
    {
        if self.is_too_early(spoken) {
            return Some(Broken::NotStorage);
        }
        match (&spoken.said, self.first_action) {
            (Ok(Saying::Sets(_)), Some(acting)) => Some(Broken::AfterAction(acting)),
            (Ok(Saying::Races), _) => Some(Broken::Race),
            _ => None,
        }
    }

    /// Takes a line that counts where it is good.
    fn answer<S: Supply>(
        &mut self,
        supply: &mut S,
        number: u64,
        spoken: &Spoken,
    ) -> Result<Option<Broken>, AllocError>
        ensures broken { IfOk result (λ broken. broken ≡ spec.breaks self.old spoken.now) }
        ensures next { OnOk result (self.new ≡ spec.after_spoken self.old Checking.Dialogue number spoken.now) }
        ensures kept { OnErr result (self.new ≡ self.old) }
        ensures memory { OnErr result (S.refused supply.new ≡ true) }
    {
        if let Some(broken) = self.left_out(spoken) {
            return Ok(Some(broken));
        }
        let broken = self.take(supply, number, &spoken.said)?;
        if broken.is_none() {
            self.begun = self.begun || spoken.worded;
        }
        Ok(broken)
    }

    /// Takes a line, and what it breaks.
    fn judge<S: Supply>(
        &mut self,
        supply: &mut S,
        number: u64,
        spoken: &Spoken,
    ) -> Result<Option<Broken>, AllocError>
        ensures broken { IfOk result (λ broken. broken ≡ spec.breaks self.old spoken.now) }
        ensures next { OnOk result (self.new ≡ spec.after_spoken self.old self.old.checking number spoken.now) }
        ensures kept { OnErr result (self.new ≡ self.old) }
        ensures memory { OnErr result (S.refused supply.new ≡ true) }
    {
        match self.checking {
            Checking::Text => self.count(supply, number, spoken),
            Checking::Dialogue => self.answer(supply, number, spoken),
        }
    }

    /// Takes the line of this number, without its line feed, and answers what is wrong with it, where something is. It is told as
    /// bad exactly where a script with it is bad by that rule, after the lines that counted before it; where there is no memory
    /// it counts for nothing.
    pub fn line<'a, S: Supply>(
        &mut self,
        alloc: Global,
        supply: &mut S,
        number: u64,
        line: &'a [u8],
    ) -> Result<Option<BadLine<'a>>, AllocError>
        ensures rule { IfOk result (λ told. option_map (λ bad. rule_of bad.reason) told ≡ fault (spec.context self.old) false line.now) }
        ensures configuration { IfOk result (λ told. IfSome told (λ bad. IfSome (spec.breaks self.old (spec.spoken_of line.now)) (λ broken.
            config_rule_of bad.reason ≡ spec.config_rule_in broken))) }
        ensures acting { IfOk result (λ told. IfSome told (λ bad. IfSome (spec.breaks self.old (spec.spoken_of line.now)) (λ broken.
            acting_of bad.reason ≡ spec.acting_in broken))) }
        ensures number { IfOk result (λ told. IfSome told (λ bad. bad.number ≡ number)) }
        ensures next { OnOk result (self.new ≡ spec.after self.old number line.now) }
        ensures kept { OnErr result (self.new ≡ self.old) }
        ensures memory { OnErr result (S.refused supply.new ≡ true) }
    {
        let mut words = Vec::new(alloc);
        short_pieces_to(supply, &mut words, line, b' ')?;
        let spoken = look_at(alloc, supply, line, words.as_slice())?;
        let Some(broken) = self.judge(supply, number, &spoken)? else {
            return Ok(None);
        };
        let remark = remark(&self.config, broken, &spoken, line, words.as_slice());
        Ok(Some(BadLine {
            number,
            line,
            word: remark.word,
            reason: remark.reason,
        }))
    }
}

/// What is wrong with a line that breaks a rule.
fn remark(config: &Config, broken: Broken, spoken: &Spoken, line: &[u8], words: &[&[u8]]) -> Remark
    ensures rule { rule_of result.reason ≡ spec.line_rule_of broken }
    ensures configuration { config_rule_of result.reason ≡ spec.config_rule_in broken }
    ensures acting { acting_of result.reason ≡ spec.acting_in broken }
{
    match broken {
        Broken::ByItself(rule) => by_itself(rule, line, words),
        Broken::AfterAction(acting) => whole(Reason::SettingAfterAction { acting }),
        Broken::Configuration(rule) => of_configuration(rule, &spoken.said, config),
        Broken::NotStorage => not_storage(words),
        Broken::Race => at(0, Reason::MisplacedRace),
    }
}

/// What is wrong with a line that breaks a rule of configurations.
fn of_configuration(rule: ConfigRule, said: &Result<Saying, LineRule>, config: &Config) -> Remark
    ensures { IsRefusal result.reason rule }
{
    match said {
        Ok(Saying::Sets(setting)) => refused(rule, setting, config),
        _ => other(rule),
    }
}

/// What is wrong with a line that breaks a rule by itself.
fn by_itself(rule: LineRule, line: &[u8], words: &[&[u8]]) -> Remark
    ensures rule { rule_of result.reason ≡ rule }
    ensures configuration { config_rule_of result.reason ≡ None }
    ensures acting { acting_of result.reason ≡ None }
{
    match rule {
        LineRule::UnknownWord => unknown(words),
        LineRule::WrongCount => wrong_count(words),
        LineRule::BadWord => bad_word(line, words),
        LineRule::SettingAfterAction
        | LineRule::BreaksConfiguration
        | LineRule::StorageNotFirst
        | LineRule::MisplacedRace => whole(Reason::Other(rule)),
    }
}
