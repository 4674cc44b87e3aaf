//! What a subchannel did with a signal.

ghost use Rattle.std.specs.Prelude.{◌≡◌};
ghost use Rattle.active_program.specs.Sent as spec;

/// What a subchannel did with a signal that it met.
#[derive(Clone, Copy)]
pub enum Met {
    /// It did nothing with it.
    Ignored,
    /// It took it.
    Taken,
}

impl Met {
    /// What was done with a signal that was taken, or was not.
    pub fn of(taken: bool) -> Self
        ensures { spec.is_taken result ≡ taken }
    {
        if taken { Met::Taken } else { Met::Ignored }
    }

    /// Whether the signal was taken.
    pub fn is_taken(self) -> bool
        ensures { result ≡ spec.is_taken self }
    {
        match self {
            Met::Ignored => false,
            Met::Taken => true,
        }
    }
}
