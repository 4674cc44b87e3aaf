//! The requests for I/O interruptions that an event leaves (SA22-7832, chapter 16).

ghost use Rattle.std.specs.Prelude.{◌≡◌, ◌<◌};
ghost use Rattle.machine_model.specs.Requests as requests_spec;
ghost use Rattle.signal_step.specs.Giving as giving_spec;

use functions::Subchannel;
use interruptions::Pending;
use scsw_irb::code::IntCode;

/// The request of a subchannel: its name, with the interruption parameter and the subclass that it has.
fn request_of(sub: &Subchannel) -> IntCode
    ensures { result ≡ requests_spec.request_of sub.now }
{
    let id = sub.state.setup().id;
    IntCode {
        set: id.set % 4,
        subchannel: id.number,
        parameter: sub.state.parameter(),
        subclass: sub.state.subclass(),
    }
}

/// How many statuses a subchannel has made.
pub fn made_by(sub: &Subchannel) -> u64
    ensures { result ≡ sub.now.state.serials.made }
{
    sub.state.rest().serials.made
}

/// Posts the request of a subchannel that had made so many statuses before an event, where the event made one. Where a
/// request of it stands, nothing changes.
#[inline(always)]
pub fn post(pending: &mut Pending, sub: &Subchannel, made: u64)
    requires { sub.now.setup.id.number < pending.old.numbers }
    ensures { pending.new ≡ giving_spec.posted_since made sub.now pending.old }
{
    if made < made_by(sub) {
        pending.post(request_of(sub));
    }
}
