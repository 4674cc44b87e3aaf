//! Control units: which of the units that share one may be served (SA22-7832, chapter 13; the sharing is own).
//!
//! Used alone, this crate promises: a type that keeps the law of `ControlUnit` serves a unit where no other is begun,
//! and says that a control-unit end is owed just where a unit was refused since the last was over. `Sharing` serves a
//! unit exactly where no other of its group is begun. `Sharing::new` and `Sharing::new_with` alone take memory, and
//! fail only for want of it, the latter only where its supply refused; nothing else refuses.
#![tactic(auto)]

mod groups;
pub mod sharing;

ghost use Rattle.std.specs.Prelude.{◌≡◌, ◌≤◌, List, length, true, false};
ghost use Rattle.control_units.specs.declared.Member.{Member};
ghost use Rattle.control_units.specs.Units as spec;

/// What a control unit keeps of a unit.
#[derive(Clone, Copy, Debug)]
pub struct Member {
    /// The number of its group: units of the same number share.
    pub group: u16,
    /// A program holds its device.
    pub begun: bool,
    /// It was refused since a unit of its group was over.
    pub refused: bool,
}

/// A control unit, or several of them, as units ask it.
pub trait ControlUnit {
    /// What is kept of each unit, by its number.
    ghost members: { Self → List Member };

    /// Whether the unit may be served. It may where no other unit is begun.
    fn may_serve(&mut self, unit: u16) -> bool
        ensures law { spec.any_other spec.is_begun (members self.old) «unit» ≡ false → result ≡ true }
        ensures known { length (members self.old) ≤ «unit» → result ≡ true }
        ensures asked { members self.new ≡ spec.asked (members self.old) «unit» result };

    /// The unit is begun.
    fn begin(&mut self, unit: u16)
        ensures { members self.new ≡ spec.member_begun (members self.old) «unit» };

    /// The unit is over. Answers whether it owes a control-unit end: whether `may_serve` was false for some unit of its
    /// group since the last time that one was over.
    fn over(&mut self, unit: u16) -> bool
        ensures owed { result ≡ spec.is_owed (members self.old) «unit» }
        ensures over { members self.new ≡ spec.over (members self.old) «unit» };
}
