//! The storage key of a block (SA22-7832, chapter 3).

ghost use Rattle.std.specs.Prelude.{◌≡◌, ℕ, ◌+◌, ◌-◌, ◌%◌, ◌<◌};

/// The storage key of a block of 4,096 bytes.
#[derive(Clone, Copy, Debug, PartialEq, Eq)]
pub struct Key {
    /// The access-control bits.
    pub access: u8,
    /// Whether a fetch needs a key that matches, as a store does.
    pub fetch_protected: bool,
    /// The reference bit, which no access sets (own).
    pub referenced: bool,
    /// The change bit, which no access sets (own).
    pub changed: bool,
    ghost access_fits: { access < 16 },
}

impl Key {
    ghost use Rattle.storage_keys.specs.Storage.{byte_of, key_of_byte, key_permits_fetch, key_permits_store};

    /// The key that every block has at first (own).
    pub const ZERO: Key = Key {
        access: 0,
        fetch_protected: false,
        referenced: false,
        changed: false,
    };

    /// The key that a byte shows: access-control bits 0 to 3, fetch protection 4, reference 5,
    /// change 6. Bit 7 is ignored.
    pub fn of_byte(byte: u8) -> Key
        ensures key { result ≡ key_of_byte byte }
        ensures byte { byte_of result ≡ byte - byte % 2 }
    {
        Key {
            access: byte / 16 % 16,
            fetch_protected: byte / 8 % 2 == 1,
            referenced: byte / 4 % 2 == 1,
            changed: byte / 2 % 2 == 1,
        }
    }

    /// The key as a byte, its bit 7 zero.
    pub fn byte(self) -> u8
        ensures { result ≡ byte_of self }
    {
        16 * self.access
            + 8 * u8::from(self.fetch_protected)
            + 4 * u8::from(self.referenced)
            + 2 * u8::from(self.changed)
    }

    /// Whether an access key permits a store into a block with this key.
    pub fn permits_store(self, key: u8) -> bool
        ensures { result ≡ key_permits_store key self }
    {
        key == 0 || key == self.access
    }

    /// Whether an access key permits a fetch from a block with this key.
    pub fn permits_fetch(self, key: u8) -> bool
        ensures { result ≡ key_permits_fetch key self }
    {
        self.permits_store(key) || !self.fetch_protected
    }
}
