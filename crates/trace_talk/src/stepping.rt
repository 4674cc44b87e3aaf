//! A machine at which lines are performed one by one.

ghost use Rattle.std.specs.Prelude.{◌≤◌, length};
ghost use Rattle.script_rows.specs.Slots.{action_length};

use crate::due::{DueLine, due_lines};
use core_lock::naming::MachineBrand;
use memory::Supply;
use script_rows::slots::KeptAction;
use std::alloc::{AllocError, Global};
use step_records::record::Record;
use trace_runs::TraceFault;
use trace_runs::tracer::{Stepped, Tracer};

/// A machine, the facts of the line that was performed last, and how many lines there were.
#[derive(Drop)]
pub(crate) struct Stepping<J: MachineBrand> {
    alloc: Global,
    tracer: Tracer<J>,
    records: Vec<Record>,
}

/// How many ranks there are.
pub(crate) const RANKS: u8 = 4;

/// The order in which lines that are due are taken: what the subsystem is to do, what units are to take, what devices are to do, what
/// subchannels are to take.
pub(crate) fn rank(line: DueLine) -> u8 {
    match line {
        DueLine::Choose { .. } => 0,
        DueLine::Down { .. } => 1,
        DueLine::Dev { .. } => 2,
        DueLine::Up { .. } => 3,
    }
}

impl<J: MachineBrand> Stepping<J> {
    /// A machine at which nothing was performed yet.
    pub(crate) fn new(alloc: Global, tracer: Tracer<J>) -> Self {
        Stepping {
            alloc,
            tracer,
            records: Vec::new(alloc),
        }
    }

    /// The machine.
    pub(crate) fn tracer(&self) -> &Tracer<J> {
        &self.tracer
    }

    /// The facts of the line that was performed last.
    pub(crate) fn records(&self) -> &[Record] {
        self.records.as_slice()
    }

    /// Performs the action of a line.
    pub(crate) fn perform<S: Supply>(
        &mut self,
        supply: &mut S,
        line: u64,
        action: &KeptAction,
        bytes: &[u8],
    ) -> Result<Stepped, TraceFault>
        requires { action_length action.now ≤ length bytes.now }
    {
        self.records.clear();
        self.tracer
            .step(supply, line, action, bytes, &mut self.records)
    }

    /// The lines that are due.
    pub(crate) fn due<S: Supply>(&self, supply: &mut S) -> Result<Vec<DueLine>, AllocError> {
        due_lines(
            self.alloc,
            supply,
            self.tracer.subsystem(),
            self.tracer.parties(),
        )
    }

    /// The lines that are due for a subchannel and its unit.
    pub(crate) fn due_for<S: Supply>(
        &self,
        supply: &mut S,
        subchannel: u32,
    ) -> Result<Vec<DueLine>, AllocError> {
        let mut lines = self.due(supply)?;
        let parties = self.tracer.parties();
        lines.retain(|line| line.is_for(parties, subchannel));
        Ok(lines)
    }

    /// Performs the first of these lines of a rank that is not refused; None where each is.
    fn perform_first<S: Supply>(
        &mut self,
        supply: &mut S,
        number: u64,
        lines: &[DueLine],
        of: u8,
    ) -> Result<Option<DueLine>, TraceFault> {
        for line in lines {
            if rank(*line) == of {
                let stepped = self.perform(supply, number, &line.action(), &[])?;
                if !matches!(stepped, Stepped::Refused(_)) {
                    return Ok(Some(*line));
                }
            }
        }
        Ok(None)
    }

    /// Performs one line that is due, under this number; None where nothing is due, or each line that is due is refused.
    pub(crate) fn perform_due<S: Supply>(
        &mut self,
        supply: &mut S,
        number: u64,
        lines: &[DueLine],
    ) -> Result<Option<DueLine>, TraceFault> {
        for of in 0..RANKS {
            if let Some(line) = self.perform_first(supply, number, lines, of)? {
                return Ok(Some(line));
            }
        }
        Ok(None)
    }
}
