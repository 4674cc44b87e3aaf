//! The channel reports that wait for a program, and the resets of channel paths that it asked for (SA22-7832,
//! chapters 14 and 17).
//!
//! Used alone, this crate promises: at most 16 reports wait, the oldest first, and `stcrw` takes the oldest. A report that
//! finds no room is lost, and the last one that waits says so from then on. The reset of a path is asked for by an accepted
//! `rchp` alone, and until it is done or the path goes down; both are reported. Nothing here takes memory or has a condition;
//! only `reset_done` refuses, where no reset is asked for, and then nothing changes. After a reset of the channel subsystem,
//! which loses the reports and the resets asked for, the state is that of `Reports::new`.
#![tactic(auto)]

ghost use Rattle.std.specs.Prelude.{◌≡◌, slice_get, length, false};
ghost use Rattle.std.specs.Bool.{OnTrue, OnFalse};
ghost use Rattle.chan_model.specs.ConditionCodes as codes;
ghost use Rattle.channel_reports.specs.Queue as spec;
ghost use Rattle.scsw_irb.specs.declared.crw.PathReport.TheVariants as path_report;

use arrayvec::ArrayVec;
use chan_model::answer::ConditionCode;
use scsw_irb::crw::{Crw, PathReport};
use std::marker::Model;

/// How many reports wait at most (own).
pub const ROOM: usize = 16;

/// A report in the queue.
#[derive(Clone, Copy, Debug)]
struct Queued {
    crw: Crw,
}

impl Default for Queued {
    fn default() -> Self {
        Queued {
            crw: Crw {
                report: PathReport::Lost,
                overflow: false,
                path: 0,
            },
        }
    }
}

/// The reports that wait, at most 16 (own), and the paths whose reset is asked for.
#[derive(Drop)]
pub struct Reports {
    queue: ArrayVec<Queued, 16>,
    asked: [bool; 256],
}

impl Model for Reports {
    ghost use Rattle.std.specs.Prelude.{map};
    ghost use Rattle.channel_reports.specs.Queue.{WaitingReports};

    ghost Value = { WaitingReports };

    ghost view = { λ r. record { reports = map (λ q. q.crw) r.queue.items; asked = r.asked } };
}

impl Reports {
    /// No report waits, and no reset is asked for.
    pub fn new() -> Self
        ensures { result ≡ spec.no_reports_wait }
    {
        Reports {
            queue: ArrayVec::new(),
            asked: [false; 256],
        }
    }

    /// Adds a report of a channel path behind those that wait. Where 16 wait it is lost, and the last of them says so by
    /// its bit R.
    pub fn add(&mut self, report: PathReport, path: u8)
        ensures { self.new ≡ spec.with_report self.old report path }
    {
        if self.queue.is_full() {
            self.mark_last();
        } else {
            self.queue.push(Queued {
                crw: Crw {
                    report,
                    overflow: false,
                    path,
                },
            });
        }
    }

    /// The sixteenth report says that a later one was lost.
    fn mark_last(&mut self)
        requires { length self.old.reports ≡ 16 }
        ensures { self.new ≡ record self.old { reports = spec.sixteenth_marked self.old.reports (slice_get self.old.reports 15) } }
    {
        if let Some(last) = self.queue.pop() {
            self.queue.push(Queued {
                crw: Crw {
                    report: last.crw.report,
                    overflow: true,
                    path: last.crw.path,
                },
            });
        }
    }

    /// How many reports wait, at most 16.
    pub fn count(&self) -> usize
        ensures { result ≡ length self.now.reports }
    {
        self.queue.len()
    }

    /// STORE CHANNEL REPORT WORD: takes the oldest report. None, condition code 1, where none waits.
    pub fn stcrw(&mut self) -> Option<Crw>
        ensures oldest { result ≡ spec.oldest self.old }
        ensures rest { self.new ≡ spec.without_oldest self.old }
    {
        if self.queue.is_empty() {
            None
        } else {
            Some(self.queue.remove(0).crw)
        }
    }

    /// RESET CHANNEL PATH: with condition code 0 the reset is asked for. `up` says that the path is configured and not
    /// down, without which the code is 3; it is 2 where its reset is asked for already.
    pub fn rchp(&mut self, path: u8, up: bool) -> ConditionCode
        ensures code { result ≡ codes.rchp_code up (spec.is_asked self.old path) }
        ensures state { self.new ≡ spec.with_rchp self.old path up }
    {
        if !up {
            return ConditionCode::Three;
        }
        if self.is_asked(path) {
            return ConditionCode::Two;
        }
        self.keep(path, true);
        ConditionCode::Zero
    }

    /// Whether the reset of a path is asked for and not done.
    pub fn is_asked(&self, path: u8) -> bool
        ensures { result ≡ spec.is_asked self.now path }
    {
        self.asked[usize::from(path)]
    }

    /// The reset of a path is done, which is reported. False where none is asked for, and then nothing changes.
    pub fn reset_done(&mut self, path: u8) -> bool
        ensures asked { result ≡ spec.is_asked self.old path }
        ensures done { OnTrue result (self.new ≡ spec.with_report (spec.with_asked self.old path false) path_report.ResetDone path) }
        ensures refused { OnFalse result (self.new ≡ self.old) }
    {
        let asked = self.is_asked(path);
        if asked {
            self.keep(path, false);
            self.add(PathReport::ResetDone, path);
        }
        asked
    }

    /// The path went down: that is reported, and its reset is no longer asked for.
    pub fn path_lost(&mut self, path: u8)
        ensures { self.new ≡ spec.with_report (spec.with_asked self.old path false) path_report.Lost path }
    {
        self.keep(path, false);
        self.add(PathReport::Lost, path);
    }

    fn keep(&mut self, path: u8, asked: bool)
        ensures { self.new ≡ spec.with_asked self.old path asked }
    {
        let index = usize::from(path);
        self.asked[index] = asked;
    }
}
