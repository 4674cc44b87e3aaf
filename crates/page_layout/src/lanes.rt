//! The lanes of a page: the script, and from the left each unit with its subchannels.

ghost use Rattle.std.specs.Prelude.{◌≡◌, OnErr, true};

use channel_config::parts::SubchannelSetup;
use memory::{Supply, push};
use std::alloc::{AllocError, Global};
use step_records::parties::Parties;

/// Room for the notes left of a lane, beside what stands there.
const LEFT_NOTES: u64 = 185;

/// Room for the notes right of a lane.
const RIGHT_NOTES: u64 = 220;

/// From a subchannel to its unit.
const GAP: u64 = 265;

/// From a unit to a subchannel on its right.
const SHARED_GAP: u64 = 290;

/// Who has a lane.
#[derive(Clone, Copy, PartialEq, Eq)]
pub enum Party {
    Script,
    Subchannel(usize),
    Unit(usize),
}

/// On which side of a lane its notes stand.
#[derive(Clone, Copy, PartialEq, Eq)]
pub enum NoteSide {
    Left,
    Right,
}

/// A lane, and where it stands.
#[derive(Clone, Copy)]
pub struct Lane {
    pub party: Party,
    pub x: u64,
    pub notes: NoteSide,
}

/// The lanes in the making: how far to the right there are some.
#[derive(Drop)]
struct LaneBuilder {
    lanes: Vec<Lane>,
    next: u64,
}

/// The lanes of the subchannels and units, right of the script, and how wide all is. A subchannel stands left of its unit, and
/// right of it where another one does so already.
pub fn lanes_of<M: Supply>(
    alloc: Global,
    supply: &mut M,
    parties: &Parties,
    script: u64,
) -> Result<(Vec<Lane>, u64), AllocError>
    ensures memory { OnErr result (M.refused supply.new ≡ true) }
{
    let mut builder = LaneBuilder {
        lanes: Vec::new(alloc),
        next: script,
    };
    for unit in 0..parties.units.len() {
        add_unit(supply, &mut builder, parties, unit)?;
    }
    let LaneBuilder { lanes, next } = builder;
    Ok((lanes, next))
}

/// Adds the lanes of a unit and of its subchannels.
fn add_unit<M: Supply>(
    supply: &mut M,
    builder: &mut LaneBuilder,
    parties: &Parties,
    unit: usize,
) -> Result<(), AllocError>
    ensures memory { OnErr result (M.refused supply.new ≡ true) }
{
    let left = builder.next.saturating_add(LEFT_NOTES);
    let middle = left.saturating_add(GAP);
    let mut right = middle;
    let mut party = None;
    for (index, setup) in parties.subchannels.as_slice().iter().enumerate() {
        if is_of(setup, unit) {
            if party.is_none() {
                party = Some(index);
                add(
                    supply,
                    builder,
                    Party::Subchannel(index),
                    left,
                    NoteSide::Left,
                )?;
            } else {
                right = right.saturating_add(SHARED_GAP);
                add(
                    supply,
                    builder,
                    Party::Subchannel(index),
                    right,
                    NoteSide::Right,
                )?;
            }
        }
    }
    add(supply, builder, Party::Unit(unit), middle, NoteSide::Right)?;
    builder.next = right.saturating_add(RIGHT_NOTES);
    Ok(())
}

/// Whether a subchannel is of a unit.
fn is_of(setup: &SubchannelSetup, unit: usize) -> bool {
    usize::from(setup.unit) == unit
}

/// Adds a lane.
fn add<M: Supply>(
    supply: &mut M,
    builder: &mut LaneBuilder,
    party: Party,
    x: u64,
    notes: NoteSide,
) -> Result<(), AllocError>
    ensures memory { OnErr result (M.refused supply.new ≡ true) }
{
    push(supply, &mut builder.lanes, Lane { party, x, notes })
}

/// Where the lane of a party stands.
pub fn place_of(lanes: &[Lane], party: Party) -> Option<u64> {
    for lane in lanes {
        if lane.party == party {
            return Some(lane.x);
        }
    }
    None
}
