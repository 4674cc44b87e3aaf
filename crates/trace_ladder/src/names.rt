//! The unit of a subchannel.

use step_records::parties::Parties;

/// The index of the unit that a subchannel reaches.
pub fn unit_of(parties: &Parties, subchannel: usize) -> usize {
    match parties.subchannels.as_slice().get(subchannel) {
        Some(setup) => usize::from(setup.unit),
        None => parties.units.len(),
    }
}
