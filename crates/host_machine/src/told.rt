//! A text that is told into a host's room.

ghost use Rattle.std.specs.Prelude.{◌≡◌, ◌≤◌, [], false, length, take, true};
ghost use Rattle.host_machine.specs.Given.{written};

use crate::given::write_first;
use streams::Sink;

/// How many bytes of a text are told at most.
const MOST_TOLD: usize = 1024;

/// The first bytes of a text, up to 1,024. It fails where there are more: then it is full.
#[derive(Drop)]
pub struct Told {
    room: [u8; MOST_TOLD],
    count: usize,
    failed: bool,
    ghost whole: { length room ≡ 1024 },
    ghost fits: { count ≤ 1024 },
    ghost full: { failed ≡ true → count ≡ 1024 },
}

impl Told {
    /// No bytes.
    pub fn new() -> Told
        ensures bytes { take result.count result.room ≡ [] }
        ensures failed { result.failed ≡ false }
    {
        Told {
            room: [0; MOST_TOLD],
            count: 0,
            failed: false,
        }
    }

    /// Its bytes are written into a room, as far as they fit: how many.
    pub fn write(&self, room: &mut [u8]) -> usize
        ensures room { room.new ≡ written (take self.now.count self.now.room) room.old }
        ensures count { result ≡ length (take (length room.old) (take self.now.count self.now.room)) }
    {
        let bytes = &self.room[..self.count];
        write_first(bytes, room);
        bytes.len().min(room.len())
    }
}

impl Sink for Told {
    ghost use Rattle.std.specs.Prelude.{Some, take};

    ghost seen = { λ h. record { bytes = Some (take h.count h.room); failed = h.failed } };

    fn put(&mut self, bytes: &[u8]) -> bool {
        let start = self.count;
        if bytes.len() > MOST_TOLD - start {
            let some = MOST_TOLD - start;
            self.room[start..MOST_TOLD].copy_from_slice(&bytes[..some]);
            self.count = MOST_TOLD;
            self.failed = true;
            return false;
        }
        let end = start + bytes.len();
        self.room[start..end].copy_from_slice(bytes);
        self.count = end;
        true
    }
}
