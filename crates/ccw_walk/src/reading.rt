//! What a block comes to where it stands.

ghost use Rattle.std.specs.Prelude.{◌≡◌};
ghost use Rattle.ccw_walk.specs.Blocks as spec;
ghost use Rattle.ccw_walk.specs.Going.{IsTargetInRange};

use crate::program::{Reading, Role};
use ccw_codec::command::{is_transfer, is_valid};
use ccw_codec::{Ccw, Format};
use orb_block::Orb;

/// Whether a block is a transfer in channel (TIC), takes control, suspends or shows a program check.
pub(crate) fn reading(orb: Orb, role: Role, bytes: &[u8; 8]) -> Reading
    ensures reading { result ≡ spec.reads orb role bytes.now }
    ensures target { IsTargetInRange result }
{
    if role.first && orb.modified_words {
        return Reading::Shows;
    }
    let format = format_of(orb);
    match Ccw::read(format, bytes) {
        Err(_) => Reading::Shows,
        Ok(ccw) if is_transfer(format, ccw.command) => transfer_reading(role, ccw),
        Ok(ccw) => command_reading(orb, role, ccw),
    }
}

fn format_of(orb: Orb) -> Format
    ensures { result ≡ spec.format_of orb }
{
    if orb.format_one {
        Format::One
    } else {
        Format::Zero
    }
}

fn transfer_reading(role: Role, ccw: Ccw) -> Reading
    ensures reading { result ≡ spec.transfer_reads role ccw }
    ensures target { IsTargetInRange result }
{
    if role.first || role.after_transfer {
        Reading::Shows
    } else {
        Reading::Transfers(ccw.address)
    }
}

fn command_reading(orb: Orb, role: Role, ccw: Ccw) -> Reading
    ensures reading { result ≡ spec.command_reads orb role ccw }
    ensures target { IsTargetInRange result }
{
    if is_misplaced(orb, role, ccw) {
        Reading::Shows
    } else if ccw.suspend {
        Reading::Suspends
    } else {
        Reading::Takes(ccw)
    }
}

fn is_misplaced(orb: Orb, role: Role, ccw: Ccw) -> bool
    ensures { result ≡ spec.is_misplaced_command orb role ccw }
{
    !role.chained && !is_valid(format_of(orb), ccw.command)
        || role.chained && ccw.count == 0
        || ccw.suspend && (!orb.suspend || role.chained)
}
