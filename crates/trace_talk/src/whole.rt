//! A script with the lines that are due after it.

ghost use Rattle.std.specs.Prelude.{◌≡◌};
ghost use Rattle.glance_directory.specs.Directory.{directory_of};
ghost use Rattle.machine_model.specs.State.{opening_of};
ghost use Rattle.subsystem.specs.Keeping.{all_serials};

use crate::due::DueLine;
use crate::stepping::Stepping;
use channel_config::config::Config;
use core_lock::naming::MachineBrand;
use core_lock::parts::Parts;
use core_lock::supplies::CoreSupply;
use memory::Supply;
use script::Script;
use script::lines::Lines;
use std::alloc::Global;
use std::marker::Brand;
use streams::Sink;
use trace_runs::TraceFault;
use trace_runs::tracer::{Stepped, Tracer};

/// What came of the lines that were performed.
#[derive(Clone, Copy, PartialEq, Eq)]
pub struct Written {
    /// All was written; otherwise the sink failed.
    pub whole: bool,
    /// Some line of the script was refused.
    pub refused: bool,
}

/// Performs a script, and writes it with the lines that are due after it, so many at most: what the subsystem is to do comes before what
/// units are to take, that before what devices are to do, and that before what subchannels are to take; of one kind the first in the
/// order of the configuration. A line that is due and refused, since a wire is full, is left for later.
pub fn put_whole<M: CoreSupply, S: Sink>(
    alloc: Global,
    supply: &mut M,
    text: &[u8],
    most: u64,
    sink: &mut S,
) -> Result<Written, TraceFault> {
    let script = Script::read_with(alloc, supply, false, text)?;
    let (config, lines) = script.into_parts();
    let parts = Parts::new_with(alloc, supply, &config)?;
    let whole = sink.put(text) && (text.is_empty() || text.ends_with(b"\n") || sink.put(b"\n"));
    let asked = Asked {
        lines: &lines,
        most,
        whole,
    };
    put_named::<Brand, M, S>(alloc, supply, config, parts, &asked, sink)
}

/// The lines of a script, of which the text was written or not, and how many lines that are due are wanted at most.
#[derive(Drop)]
struct Asked<'a> {
    lines: &'a Lines,
    most: u64,
    whole: bool,
}

/// Performs lines at a machine of this name, and writes those that are due after them.
fn put_named<J: MachineBrand, M: CoreSupply, S: Sink>(
    alloc: Global,
    supply: &mut M,
    config: Config,
    parts: Parts,
    asked: &Asked<'_>,
    sink: &mut S,
) -> Result<Written, TraceFault>
    requires named { parts.name ≡ J.name }
    requires set_up { J.setup ≡ config }
    requires directory { parts.name.directory ≡ directory_of (opening_of config) }
    requires serials { parts.serials ≡ all_serials (opening_of config) }
{
    let tracer = Tracer::<J>::new(alloc, supply, config, parts)?;
    let mut stepping = Stepping::new(alloc, tracer);
    perform_all(&mut stepping, supply, asked, sink)
}

/// Performs lines, and writes those that are due after them.
fn perform_all<J: MachineBrand, M: Supply, S: Sink>(
    stepping: &mut Stepping<J>,
    supply: &mut M,
    asked: &Asked<'_>,
    sink: &mut S,
) -> Result<Written, TraceFault> {
    let refused = perform(stepping, supply, asked.lines)?;
    let whole = asked.whole && put_due(stepping, supply, asked.most, sink)?;
    Ok(Written { whole, refused })
}

/// Performs lines in order: whether one was refused.
fn perform<J: MachineBrand, M: Supply>(
    stepping: &mut Stepping<J>,
    supply: &mut M,
    lines: &Lines,
) -> Result<bool, TraceFault> {
    let mut refused = false;
    for index in 0..lines.len() {
        if let Some(line) = lines.kept(index) {
            let stepped = stepping.perform(supply, line.number, line.action, line.bytes)?;
            if matches!(stepped, Stepped::Refused(_)) {
                refused = true;
            }
        }
    }
    Ok(refused)
}

/// Performs and writes lines that are due, so many at most.
fn put_due<J: MachineBrand, M: Supply, S: Sink>(
    stepping: &mut Stepping<J>,
    supply: &mut M,
    most: u64,
    sink: &mut S,
) -> Result<bool, TraceFault> {
    for _ in 0..most {
        let Some(line) = perform_one(stepping, supply)? else {
            return Ok(true);
        };
        if !(line.put(sink) && sink.put(b"\n")) {
            return Ok(false);
        }
    }
    Ok(true)
}

/// Performs one line that is due, and answers which; None where none is.
fn perform_one<J: MachineBrand, M: Supply>(
    stepping: &mut Stepping<J>,
    supply: &mut M,
) -> Result<Option<DueLine>, TraceFault> {
    let lines = stepping.due(supply)?;
    stepping.perform_due(supply, 0, lines.as_slice())
}
