//! The room for which reading a script asks, and many lines. What scripts ask for, and in which line and by which rule a text is none, `tools/scenes` and
//! `tools/stored` show, and what comes of room that is refused, `tools/failing`.

use memory::Supply;
use script::Script;
use std::alloc::{AllocError, Global};

/// A text that sets up storage, and has then this part so many times.
fn text_of(alloc: Global, count: usize, part: &[u8]) -> Vec<u8> {
    let mut text = Vec::new(alloc);
    let _ = text.extend_from_slice(b"storage 10\n");
    for _ in 0..count {
        let _ = text.extend_from_slice(part);
    }
    text
}

/// How many actions a text asks for; none where it is not read.
fn actions(alloc: Global, text: &[u8]) -> usize {
    match Script::read(alloc, false, text) {
        Ok(script) => script.lines().len(),
        Err(_) => 0,
    }
}

#[test]
fn a_script_of_many_lines_is_read(rt: HostRuntime) {
    let text = text_of(rt.alloc(), 70_000, b"\ndev 0\n");
    let actions = actions(rt.alloc(), text.as_slice());
    drop(text);
    assert!(rt; actions == 70_000);
}

/// What the allocator has. It adds up for how many items more than there was room for it was asked.
#[derive(Drop)]
struct Adding {
    asked: usize,
    refused: bool,
}

impl Supply for Adding {
    ghost refused = { λ a. a.refused };

    fn reserve<T>(&mut self, list: &mut Vec<T>, more: usize) -> Result<(), AllocError> {
        let room = list.capacity() - list.len();
        self.asked = self.asked.saturating_add(more.saturating_sub(room));
        let result = list.reserve(more);
        if result.is_err() {
            self.refused = true;
        }
        result
    }
}

/// How many items more than there is room for are asked of what the allocator has as a text is read; none where it is not read.
fn asked_for(alloc: Global, text: &[u8]) -> usize {
    let mut supply = Adding {
        asked: 0,
        refused: false,
    };
    let bad = Script::read_with(alloc, &mut supply, false, text).err();
    if bad.is_none() { supply.asked } else { 0 }
}

/// Room is asked for once: a line to eight bytes and one; and 16 words for each line in turn.
#[test]
fn a_script_asks_for_a_line_to_eight_bytes(rt: HostRuntime) {
    let text = text_of(rt.alloc(), 1_000, b"dev 000\n");
    let asked = asked_for(rt.alloc(), text.as_slice());
    drop(text);
    // Of 8,011 bytes.
    assert!(rt; asked >= 1_002 && asked <= 1_018, "{asked}");
}
