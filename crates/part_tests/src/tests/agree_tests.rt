//! A world of two sides: a program, signals that vanish, repeat and change places, refusals, and want of memory.

use agree::event::WorldEvent;
use agree::reply::WorldReply;
use agree::world::World;
use chan_model::chunk::Chunk;
use chan_model::fault::Fault;
use chan_model::hold_state::HoldPhase;
use chan_model::names::{Path, Side};
use chan_model::report::{DeviceAnswer, Report};
use chan_model::signal::Down;
use chan_model::unit_state::{Connection, Own};
use hold::Hold;
use memory::FailingMemory;
use scsw_irb::status::DeviceStatus;

const SIDE: Side = Side::First;

/// What comes of an event.
#[derive(Clone, Copy, PartialEq, Eq)]
enum Outcome {
    /// It is done, and no signal moved.
    Done,
    /// A signal was sent.
    Sent,
    /// A signal arrived and was taken.
    Taken,
    /// A signal arrived, was taken, and one was sent in answer.
    Answered,
    /// A signal arrived and was ignored.
    Ignored,
    NotSent,
    NoSuchPath,
    NotNow,
    OtherRefusal,
}

fn outcome_of_arrival(taken: bool, answered: bool) -> Outcome {
    match (taken, answered) {
        (false, _) => Outcome::Ignored,
        (true, false) => Outcome::Taken,
        (true, true) => Outcome::Answered,
    }
}

fn outcome_of_refusal(fault: Fault) -> Outcome {
    match fault {
        Fault::NotSent => Outcome::NotSent,
        Fault::NoSuchPath => Outcome::NoSuchPath,
        Fault::NotNow => Outcome::NotNow,
        _ => Outcome::OtherRefusal,
    }
}

/// What comes of an event, where there is memory.
fn comes_of(world: &mut World, event: &WorldEvent) -> Outcome {
    let reply = world.step(event);
    match &reply {
        Ok(WorldReply::Done) => Outcome::Done,
        Ok(WorldReply::SentDown { .. } | WorldReply::SentUp { .. }) => Outcome::Sent,
        Ok(WorldReply::Down { taken, sent, .. }) => outcome_of_arrival(*taken, sent.is_some()),
        Ok(WorldReply::Up { taken, sent, .. }) => outcome_of_arrival(*taken, sent.is_some()),
        Err(fault) => outcome_of_refusal(*fault),
    }
}

/// Whether the same comes of each of these events, one after the other.
fn come_to(world: &mut World, events: &[WorldEvent], wanted: Outcome) -> bool {
    let mut all = true;
    for event in events {
        all = comes_of(world, event) == wanted && all;
    }
    all
}

fn choose(path: u8) -> WorldEvent {
    WorldEvent::Choose {
        side: SIDE,
        path,
        single_path: false,
    }
}

/// The signal at an index arrives at the unit.
fn down(index: usize, keep: bool) -> WorldEvent {
    WorldEvent::Down {
        side: SIDE,
        index,
        keep,
        may: true,
    }
}

/// The signal at an index arrives at the hold. Its program waits for a Data and for an End.
fn up(index: usize, keep: bool) -> WorldEvent {
    WorldEvent::Up {
        side: SIDE,
        index,
        keep,
        may: true,
    }
}

fn send(path: u8, signal: Down) -> WorldEvent {
    WorldEvent::Send {
        side: SIDE,
        path,
        signal,
    }
}

/// The first command of the first program.
fn command(code: u8, room: u16) -> Down {
    Down::Command {
        number: 1,
        command: 1,
        code,
        room,
    }
}

fn took(sequence: u64, room: u16) -> Down {
    Down::Took {
        number: 1,
        command: 1,
        sequence,
        room,
    }
}

/// One byte of the first chunk of a write.
fn give(connection: u64) -> Down {
    Down::Give {
        number: 1,
        connection,
        command: 1,
        sequence: 1,
        bytes: Chunk::of(&[7]),
    }
}

fn report(sequence: u64, answer: DeviceAnswer) -> WorldEvent {
    WorldEvent::Report(Report {
        side: SIDE,
        number: 1,
        command: 1,
        sequence,
        answer,
    })
}

/// Whether a program is connected on this path, by this connection.
fn is_on(connection: &Connection, path: Path, by: u64) -> bool {
    match connection {
        Connection::On {
            path: on,
            connection,
        } => on.same(path) && *connection == by,
        _ => false,
    }
}

/// Whether both take the first program to be connected on this path, by this connection.
fn are_connected(world: &World, path: Path, by: u64) -> bool {
    let held = Hold::of(world.hold(SIDE)).is_connected(path, 1, by);
    let Own::Owned {
        number,
        connection,
        ..
    } = world.own()
    else {
        return false;
    };
    held && number == 1 && is_on(&connection, path, by)
}

/// Whether neither has a program, no signal waits, and one program was accepted.
fn are_free(world: &World) -> bool {
    let free = matches!(world.hold(SIDE).phase, HoldPhase::Free)
        && matches!(world.own(), Own::Idle);
    let none_waits = world.downs_len(SIDE) == 0 && world.ups_len(SIDE) == 0;
    free && none_waits && world.accepted(SIDE) == [1].as_slice()
}

/// Whether a program is offered and accepted on this path.
fn is_offered(world: &mut World, path: u8) -> bool {
    let sent = come_to(world, &[choose(path)], Outcome::Sent);
    let accepted = come_to(world, &[down(0, false)], Outcome::Answered);
    sent && accepted && come_to(world, &[up(0, false)], Outcome::Taken)
}

/// Whether a signal of a program is sent on path 5, and taken.
fn is_sent(world: &mut World, signal: Down) -> bool {
    let sent = come_to(world, &[send(5, signal)], Outcome::Sent);
    sent && come_to(world, &[down(0, false)], Outcome::Taken)
}

/// Whether the unit sends what its device answers, and that is taken.
fn is_reported(world: &mut World, sequence: u64, answer: DeviceAnswer) -> bool {
    let sent = come_to(world, &[report(sequence, answer)], Outcome::Sent);
    sent && come_to(world, &[up(0, false)], Outcome::Taken)
}

/// Whether a read with room for three bytes, and then for one more, brings a chunk of each, and ends.
fn reads(world: &mut World) -> bool {
    let commanded = is_sent(world, command(2, 3));
    let begun = come_to(world, &[report(0, DeviceAnswer::Begins)], Outcome::Done);
    let first = is_reported(world, 0, DeviceAnswer::Supplied(Chunk::of(&[1, 2, 3])));
    let first_answered = is_sent(world, took(1, 1));
    let second = is_reported(world, 1, DeviceAnswer::Supplied(Chunk::of(&[4])));
    let second_answered = is_sent(world, took(2, 0));
    let ended = DeviceAnswer::Ended {
        status: DeviceStatus::end(),
        more: false,
    };
    let end = is_reported(world, 2, ended);
    commanded && begun && first && first_answered && second && second_answered && end
}

/// Whether the device is let go.
fn lets_go(world: &mut World) -> bool {
    let sent = come_to(world, &[WorldEvent::LetGo { side: SIDE }], Outcome::Sent);
    let released = come_to(world, &[down(0, false)], Outcome::Answered);
    sent && released && come_to(world, &[up(0, false)], Outcome::Taken)
}

/// Whether a program is offered on path 5, reads and ends, and leaves nothing behind.
fn goes_through(world: &mut World) -> bool {
    let path = Path::new(5).unwrap();
    let offered = is_offered(world, 5) && are_connected(world, path, 0);
    let read = reads(world) && are_connected(world, path, 0);
    offered && read && lets_go(world) && are_free(world)
}

#[test]
fn a_program_goes_from_its_first_signal_to_its_last(rt: HostRuntime) {
    let through = goes_through(&mut World::new(rt.alloc()));
    assert!(rt; through);
}

/// Whether a Select and the answer to it are taken once, though each arrives twice.
fn is_accepted_once(world: &mut World) -> bool {
    let offered = come_to(world, &[choose(1)], Outcome::Sent);
    let accepted = come_to(world, &[down(0, true)], Outcome::Answered);
    let heard = come_to(world, &[up(0, true)], Outcome::Taken);
    let again = [down(0, false), up(0, false)];
    offered && accepted && heard && come_to(world, &again, Outcome::Ignored)
}

/// Whether a Command that vanishes and is sent again is taken once, and the device asks for bytes.
fn asks_though_lost(world: &mut World) -> bool {
    let sent = come_to(world, &[send(1, command(1, 0))], Outcome::Sent);
    let lost = WorldEvent::LoseDown {
        side: SIDE,
        index: 0,
    };
    let vanished = come_to(world, &[lost], Outcome::Done);
    let sent_twice = [send(1, command(1, 0)), send(1, command(1, 0))];
    let sent_again = come_to(world, &sent_twice, Outcome::Sent);
    let taken = come_to(world, &[down(0, false)], Outcome::Taken);
    let ignored = come_to(world, &[down(0, false)], Outcome::Ignored);
    let asked = come_to(world, &[report(0, DeviceAnswer::Begins)], Outcome::Sent);
    sent && vanished && sent_again && taken && ignored && asked
}

/// Whether the program leaves its path and is connected on path 6, and its Data, which Leave and Back overtook, is ignored and
/// vanishes.
fn comes_back(world: &mut World) -> bool {
    let left = come_to(world, &[WorldEvent::Leave], Outcome::Sent);
    let away = come_to(world, &[up(1, false)], Outcome::Taken);
    let asked = come_to(world, &[WorldEvent::Ask { path: 6 }], Outcome::Sent);
    let granted = come_to(world, &[up(1, false)], Outcome::Answered);
    let taken = come_to(world, &[down(0, false)], Outcome::Taken);
    let older = come_to(world, &[up(0, true)], Outcome::Ignored);
    let lost = WorldEvent::LoseUp {
        side: SIDE,
        index: 0,
    };
    let vanished = come_to(world, &[lost], Outcome::Done);
    left && away && asked && granted && taken && older && vanished
}

/// Whether a side that is told of a restart sends a Reset, which is taken once, though it arrives twice, and ends the program.
fn is_reset(world: &mut World) -> bool {
    let notice = WorldEvent::Notice {
        side: SIDE,
        path: 6,
    };
    let restarted = come_to(world, &[WorldEvent::Restart], Outcome::Done);
    let told = come_to(world, &[notice], Outcome::Sent);
    let heard = come_to(world, &[up(0, false)], Outcome::Taken);
    let due = matches!(world.hold(SIDE).phase, HoldPhase::Reset { number: 2 });
    let sent = come_to(world, &[choose(3)], Outcome::Sent);
    let cleared = come_to(world, &[down(0, true)], Outcome::Answered);
    let ignored = come_to(world, &[down(0, false)], Outcome::Ignored);
    let over = come_to(world, &[up(0, false)], Outcome::Taken);
    restarted && told && heard && due && sent && cleared && ignored && over
}

/// Whether all this is so of one program, and leaves nothing behind.
fn survives(world: &mut World) -> bool {
    let accepted = is_accepted_once(world) && asks_though_lost(world);
    let back = comes_back(world) && are_connected(world, Path::new(6).unwrap(), 1);
    accepted && back && is_reset(world) && are_free(world)
}

#[test]
fn signals_vanish_and_repeat_and_a_restart_ends_a_program(rt: HostRuntime) {
    let survived = survives(&mut World::new(rt.alloc()));
    assert!(rt; survived);
}

/// Whether events on paths that are not there are refused.
fn refuses_paths(world: &mut World) -> bool {
    let side = SIDE;
    let events = [
        choose(8),
        send(8, command(1, 0)),
        WorldEvent::PathDown { side, path: 8 },
        WorldEvent::PathUp { side, path: 9 },
        WorldEvent::PathReset { side, path: 255 },
        WorldEvent::Ask { path: 8 },
        WorldEvent::Attention { side, path: 8 },
        WorldEvent::Notice { side, path: 8 },
    ];
    come_to(world, &events, Outcome::NoSuchPath)
}

/// Whether events of signals that were not sent are refused.
fn refuses_signals(world: &mut World) -> bool {
    let side = SIDE;
    let events = [
        down(0, false),
        up(0, false),
        WorldEvent::LoseDown { side, index: 0 },
        WorldEvent::LoseUp { side, index: 1 },
    ];
    come_to(world, &events, Outcome::NotSent)
}

/// Whether events are refused that cannot be where there is no program, no restart and no path that is down.
fn refuses_idle(world: &mut World) -> bool {
    let side = SIDE;
    let events = [
        WorldEvent::LetGo { side },
        WorldEvent::PathUp { side, path: 0 },
        WorldEvent::Leave,
        WorldEvent::Ask { path: 0 },
        WorldEvent::Notice { side, path: 0 },
        report(0, DeviceAnswer::Begins),
        send(2, command(1, 0)),
    ];
    come_to(world, &events, Outcome::NotNow)
}

/// Whether a path that is down neither goes down nor is reset.
fn refuses_path_down(world: &mut World) -> bool {
    let side = SIDE;
    let path = 7;
    let goes_down = come_to(world, &[WorldEvent::PathDown { side, path }], Outcome::Done);
    let events = [
        WorldEvent::PathDown { side, path },
        WorldEvent::PathReset { side, path },
    ];
    goes_down && come_to(world, &events, Outcome::NotNow)
}

/// Whether a program that is connected on path 2 is not offered again, nothing is sent for it by another path or that is not its own,
/// and no command while it is away.
fn refuses_to_send(world: &mut World) -> bool {
    let other = Down::Halt { number: 2 };
    let events = [
        send(3, command(1, 0)),
        send(3, took(0, 1)),
        send(2, other),
        send(2, give(1)),
        send(2, Down::Select { number: 1 }),
        send(2, Down::Release { number: 1 }),
        choose(2),
    ];
    let connected = is_offered(world, 2) && come_to(world, &events, Outcome::NotNow);
    let left = come_to(world, &[WorldEvent::Leave], Outcome::Sent);
    let away = come_to(world, &[up(0, false)], Outcome::Taken);
    connected && left && away && come_to(world, &[send(2, command(1, 0))], Outcome::NotNow)
}

/// Whether each event is refused that cannot be.
fn refuses(world: &mut World) -> bool {
    let named = refuses_paths(world) && refuses_signals(world);
    let idle = refuses_idle(world) && refuses_path_down(world);
    named && idle && refuses_to_send(world)
}

#[test]
fn what_cannot_be_is_refused(rt: HostRuntime) {
    let refused = refuses(&mut World::new(rt.alloc()));
    assert!(rt; refused);
}

/// How many requests for room an event makes: it is refused each in turn, and then accepted. A list keeps the room that it was
/// given before another was refused it. No event makes ten.
fn requests_of(world: &mut World, event: &WorldEvent) -> Option<u64> {
    for left in 0..10 {
        let mut supply = FailingMemory {
            left,
            refused: false,
        };
        match world.step_with(&mut supply, event) {
            Ok(_) => return if supply.refused { None } else { Some(left) },
            Err(fault) => {
                if !supply.refused || !matches!(fault, Fault::NoMemory) {
                    return None;
                }
            }
        }
    }
    None
}

/// Whether an offer makes one request, its acceptance two, and the answer to it none, after which both are connected.
fn makes_few_requests(world: &mut World) -> bool {
    let offer = requests_of(world, &choose(2));
    let accept = requests_of(world, &down(0, false));
    let heard = requests_of(world, &up(0, false));
    let few = offer == Some(1) && accept == Some(2) && heard == Some(0);
    few && are_connected(world, Path::new(2).unwrap(), 0)
}

/// Whether fifteen hundred signals are sent and kept, one by one, and a run goes on behind them.
fn keeps_signals(world: &mut World) -> bool {
    let attention = WorldEvent::Attention {
        side: SIDE,
        path: 1,
    };
    let mut sent = true;
    for _ in 0..1500 {
        sent = comes_of(world, &attention) == Outcome::Sent && sent;
    }
    let kept = world.ups_len(SIDE) == 1500;
    let run = world.run(&[WorldEvent::Restart, attention]).is_ok();
    sent && kept && run
}

#[test]
fn room_is_asked_for_and_there_is_enough(rt: HostRuntime) {
    let few = makes_few_requests(&mut World::new(rt.alloc()));
    let kept = keeps_signals(&mut World::new(rt.alloc()));
    assert!(rt; few && kept);
}
