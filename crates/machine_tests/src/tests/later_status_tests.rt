//! A device that gives channel end at once, and channel end with device end at last, as the law of devices lets it: what its unit shows
//! of the second status (SA22-7832, chapter 16). The devices of scripts give device end alone at last.

use chan_model::lent::PlainDown;
use chan_model::names::{Path, Side};
use chan_model::report::{DeviceAnswer, Report};
use chan_model::signal::{Down, Up};
use scsw_irb::status::DeviceStatus;
use unit::Unit;

/// Whether the unit takes a signal on path 2.
fn takes(unit: &mut Unit, signal: PlainDown) -> bool {
    let path = Path::new(2).unwrap();
    unit.take(Side::First, path, &signal.lend(), true).taken
}

/// The status that the unit shows where the device ends a command, or its channel's part, with this one; None where it shows none.
fn shown(unit: &mut Unit, status: DeviceStatus) -> Option<u8> {
    let last = match &unit.state().current {
        Some(command) => command.sequence,
        None => 0,
    };
    if last >= 8 {
        return None;
    }
    let report = Report {
        side: Side::First,
        number: 1,
        command: 1,
        sequence: 0,
        answer: DeviceAnswer::Ended {
            status,
            more: false,
        },
    };
    let sent = unit.report(&report).sent.map(|sent| sent.signal);
    match sent {
        Some(Up::End { status, .. }) => Some(status.bits()),
        _ => None,
    }
}

/// Whether a unit is selected and takes a command that rewinds, shows channel end, then device end alone, and then nothing.
fn ends_in_two(unit: &mut Unit) -> bool {
    let selected = takes(unit, PlainDown::of(Down::Select { number: 1 }));
    let rewind = PlainDown::of(Down::Command {
        number: 1,
        command: 1,
        code: 7,
        room: 0,
    });
    let begun = takes(unit, rewind);
    let first = shown(unit, DeviceStatus::CHANNEL_END);
    let second = shown(unit, DeviceStatus::end());
    let third = shown(unit, DeviceStatus::end());
    selected && begun && first == Some(0x08) && second == Some(0x04) && third == None
}

#[test]
fn channel_end_that_was_sent_is_left_out_of_the_later_status(rt: HostRuntime) {
    let ended = ends_in_two(&mut Unit::new());
    assert!(rt; ended);
}
