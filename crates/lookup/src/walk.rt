//! Where a subchannel stands among all, by a search.

ghost use Rattle.std.specs.Prelude.{◌≡◌, ◌<◌, IfSome, length};
ghost use Rattle.subchannel_model.specs.Indices as index_spec;

use chan_model::names::Side;
use channel_config::names::SubchannelId;
use functions::Subchannel;

fn is_named(id: SubchannelId, sub: &Subchannel) -> bool
    ensures { result ≡ index_spec.is_named id sub.now }
{
    let named = sub.state.setup().id;
    named.set == id.set && named.number == id.number
}

/// The index of the first subchannel of this name. None where no subchannel has it.
pub(crate) fn index_in(id: SubchannelId, subs: &[Subchannel]) -> Option<usize>
    ensures index { result ≡ index_spec.index_in id subs.now }
    ensures bound { IfSome result (λ index. index < length subs.now) }
{
    for (index, sub) in subs.iter().enumerate() {
        if is_named(id, sub) {
            return Some(index);
        }
    }
    None
}

fn reaches(unit: usize, side: Side, sub: &Subchannel) -> bool
    ensures { result ≡ index_spec.reaches «unit» side sub.now }
{
    let setup = sub.state.setup();
    usize::from(setup.unit) == unit && setup.side.same(side)
}

/// The index of the first subchannel that reaches this side of a unit. None where no subchannel does.
pub(crate) fn reached_in(unit: usize, side: Side, subs: &[Subchannel]) -> Option<usize>
    ensures index { result ≡ index_spec.reached_in «unit» side subs.now }
    ensures bound { IfSome result (λ index. index < length subs.now) }
{
    for (index, sub) in subs.iter().enumerate() {
        if reaches(unit, side, sub) {
            return Some(index);
        }
    }
    None
}
