//! Signals whose bytes are owned, and what is made of them.

ghost use Rattle.std.specs.Prelude.{◌≡◌, ◌≤◌, ◌++◌, ℕ, List, length};
ghost use Rattle.chan_model.specs.Loads.{load_length};
ghost use Rattle.chan_model.specs.Signals as spec;

use crate::chunk::{Bytes, Chunk, ChunkLength};
use crate::signal::{Down, KeptDown, KeptUp, Load, OnPath, Up};

impl<B> Down<B> {
    /// The same signal over other bytes.
    pub fn with<C: Drop>(&self, bytes: C) -> Down<C>
        ensures { result ≡ spec.map_down (λ _. bytes) self.now }
    {
        match self {
            Down::Select { number } => Down::Select { number: *number },
            Down::Command {
                number,
                command,
                code,
                room,
            } => Down::Command {
                number: *number,
                command: *command,
                code: *code,
                room: *room,
            },
            Down::Grant { number, connection } => Down::Grant {
                number: *number,
                connection: *connection,
            },
            Down::Refuse { number, connection } => Down::Refuse {
                number: *number,
                connection: *connection,
            },
            Down::Took {
                number,
                command,
                sequence,
                room,
            } => Down::Took {
                number: *number,
                command: *command,
                sequence: *sequence,
                room: *room,
            },
            Down::Give {
                number,
                connection,
                command,
                sequence,
                ..
            } => Down::Give {
                number: *number,
                connection: *connection,
                command: *command,
                sequence: *sequence,
                bytes,
            },
            Down::Halt { number } => Down::Halt { number: *number },
            Down::Release { number } => Down::Release { number: *number },
            Down::Reset { number, restarts } => Down::Reset {
                number: *number,
                restarts: *restarts,
            },
            Down::Got { attention } => Down::Got {
                attention: *attention,
            },
        }
    }
}

impl Down {
    /// Its bytes; most signals have none.
    pub fn bytes(&self) -> &[u8]
        ensures value { result.now ≡ spec.down_bytes self.now }
        ensures bound { length result.now ≤ 256 }
    {
        match self {
            Down::Give { bytes, .. } => bytes.as_slice(),
            _ => &[],
        }
    }

    /// The same signal, its bytes standing elsewhere.
    pub fn keep(&self) -> KeptDown
        ensures kept { (rest : List ℕ) → spec.down_in result (spec.down_bytes self.now ++ rest) ≡ self.now }
        ensures whole { spec.down_in result (spec.down_bytes self.now) ≡ self.now }
        ensures length { spec.down_length result ≡ length (spec.down_bytes self.now) }
        ensures bound { length (spec.down_bytes self.now) ≤ 256 }
    {
        self.with(ChunkLength::of(self.bytes()))
    }

    /// The same signal; it takes no memory.
    pub fn copy(&self) -> Self
        ensures { result ≡ self.now }
    {
        self.with(Chunk::of(self.bytes()))
    }
}

impl Load {
    /// How many bytes it stands for.
    pub fn len(&self) -> usize
        ensures { result ≡ load_length self.now }
    {
        match self {
            Load::Absorbed(count) => usize::from(*count),
            Load::Bytes(bytes) => bytes.len(),
        }
    }

    /// The same load, its bytes lent.
    pub fn lend(&self) -> Load<Bytes<'_>>
        ensures { spec.lent_load result ≡ self.now }
    {
        match self {
            Load::Absorbed(count) => Load::Absorbed(*count),
            Load::Bytes(bytes) => Load::Bytes(bytes.lend()),
        }
    }

    /// The same load; it takes no memory.
    pub fn copy(&self) -> Self
        ensures { result ≡ self.now }
    {
        self.lend().own()
    }
}

impl<'a> Load<Bytes<'a>> {
    /// Its bytes; a count has none.
    pub fn bytes(&self) -> &'a [u8]
        ensures value { result.now ≡ spec.load_bytes (spec.lent_load self.now) }
        ensures bound { length result.now ≤ 256 }
    {
        match self {
            Load::Absorbed(_) => &[],
            Load::Bytes(bytes) => bytes.as_slice(),
        }
    }

    /// The same load with its own bytes.
    pub fn own(&self) -> Load
        ensures { result ≡ spec.lent_load self.now }
    {
        match self {
            Load::Absorbed(count) => Load::Absorbed(*count),
            Load::Bytes(bytes) => Load::Bytes(Chunk::of(bytes.as_slice())),
        }
    }

    /// The same load, its bytes standing elsewhere.
    pub fn keep(&self) -> Load<ChunkLength>
        ensures kept { (rest : List ℕ) → spec.load_in result (spec.load_bytes (spec.lent_load self.now) ++ rest) ≡ spec.lent_load self.now }
        ensures whole { spec.load_in result (spec.load_bytes (spec.lent_load self.now)) ≡ spec.lent_load self.now }
        ensures length { spec.kept_length result ≡ length (spec.load_bytes (spec.lent_load self.now)) }
        ensures bound { length (spec.load_bytes (spec.lent_load self.now)) ≤ 256 }
    {
        match self {
            Load::Absorbed(count) => Load::Absorbed(*count),
            Load::Bytes(bytes) => Load::Bytes(ChunkLength::of(bytes.as_slice())),
        }
    }
}

impl Load<ChunkLength> {
    /// How many bytes stand elsewhere.
    pub fn length(&self) -> usize
        ensures value { result ≡ spec.kept_length self.now }
        ensures bound { result ≤ 256 }
    {
        match self {
            Load::Absorbed(_) => 0,
            Load::Bytes(bytes) => bytes.get(),
        }
    }

    /// The load with the first of these bytes.
    pub fn lend<'a>(&self, bytes: &'a [u8]) -> Load<Bytes<'a>>
        requires { spec.kept_length self.now ≤ length bytes.now }
        ensures { spec.lent_load result ≡ spec.load_in self.now bytes.now }
    {
        match self {
            Load::Absorbed(count) => Load::Absorbed(*count),
            Load::Bytes(length) => Load::Bytes(Bytes::of(&bytes[..length.get()])),
        }
    }
}

impl<L> Up<L> {
    /// The same signal over another load.
    pub fn with<M: Drop>(&self, load: M) -> Up<M>
        ensures { result ≡ spec.map_up (λ _. load) self.now }
    {
        match self {
            Up::Accept { number } => Up::Accept { number: *number },
            Up::Busy { number } => Up::Busy { number: *number },
            Up::Leave { number, connection } => Up::Leave {
                number: *number,
                connection: *connection,
            },
            Up::Back { number, connection } => Up::Back {
                number: *number,
                connection: *connection,
            },
            Up::Data {
                number,
                connection,
                command,
                sequence,
                ..
            } => Up::Data {
                number: *number,
                connection: *connection,
                command: *command,
                sequence: *sequence,
                load,
            },
            Up::End {
                number,
                command,
                status,
                more,
            } => Up::End {
                number: *number,
                command: *command,
                status: *status,
                more: *more,
            },
            Up::Released { number } => Up::Released { number: *number },
            Up::Cleared { number } => Up::Cleared { number: *number },
            Up::Notice { restarts } => Up::Notice {
                restarts: *restarts,
            },
            Up::Attn { attention, status } => Up::Attn {
                attention: *attention,
                status: *status,
            },
        }
    }
}

impl Up {
    /// What it brings; of a signal that is no Data it is nothing.
    pub fn load(&self) -> Load<Bytes<'_>>
        ensures { spec.lent_load result ≡ spec.load_of self.now }
    {
        match self {
            Up::Data { load, .. } => load.lend(),
            _ => Load::Absorbed(0),
        }
    }

    /// Its bytes; most signals have none.
    pub fn bytes(&self) -> &[u8]
        ensures value { result.now ≡ spec.up_bytes self.now }
        ensures bound { length result.now ≤ 256 }
    {
        self.load().bytes()
    }

    /// The same signal, its bytes standing elsewhere.
    pub fn keep(&self) -> KeptUp
        ensures kept { (rest : List ℕ) → spec.up_in result (spec.up_bytes self.now ++ rest) ≡ self.now }
        ensures whole { spec.up_in result (spec.up_bytes self.now) ≡ self.now }
        ensures length { spec.up_length result ≡ length (spec.up_bytes self.now) }
        ensures bound { length (spec.up_bytes self.now) ≤ 256 }
    {
        self.with(self.load().keep())
    }

    /// The same signal; it takes no memory.
    pub fn copy(&self) -> Self
        ensures { result ≡ self.now }
    {
        self.with(self.load().own())
    }
}

impl OnPath<Down> {
    /// The same signal on the same path; it takes no memory.
    pub fn copy(&self) -> Self
        ensures { result ≡ self.now }
    {
        OnPath {
            path: self.path,
            signal: self.signal.copy(),
        }
    }
}

impl OnPath<Up> {
    /// The same signal on the same path; it takes no memory.
    pub fn copy(&self) -> Self
        ensures { result ≡ self.now }
    {
        OnPath {
            path: self.path,
            signal: self.signal.copy(),
        }
    }
}
