//! A program that is away comes back.

use chan_model::lent::{PlainDown, PlainUp};
use chan_model::names::Path;
use chan_model::signal::{Down, OnPath, Up};
use hold::Hold;

/// Whether the hold takes this signal that came by this path.
fn takes(hold: &mut Hold, path: Path, signal: PlainUp) -> bool {
    hold.take(path, &signal.lend(), true).taken
}

/// Whether the program comes back by the second connection, which is granted.
fn comes_back(hold: &mut Hold, path: Path) -> bool {
    let back = PlainUp::of(Up::Back {
        number: 1,
        connection: 1,
    });
    let grant = hold.take(path, &back.lend(), true).sent;
    matches!(
        &grant,
        Some(OnPath {
            signal: PlainDown {
                kept: Down::Grant {
                    number: 1,
                    connection: 1
                },
                ..
            },
            ..
        })
    )
}

#[test]
fn a_program_that_left_is_granted_another_path(rt: HostRuntime) {
    let mut hold = Hold::new();
    let first = Path::new(2).unwrap();
    let second = Path::new(5).unwrap();
    let leave = Up::Leave {
        number: 1,
        connection: 0,
    };
    let _ = hold.offer(1, first, false);
    let accepted = takes(&mut hold, first, PlainUp::of(Up::Accept { number: 1 }));
    let left = takes(&mut hold, first, PlainUp::of(leave));
    let granted = comes_back(&mut hold, second);
    let back = hold.is_connected(second, 1, 1);
    assert!(rt; accepted && left && granted && back);
}
