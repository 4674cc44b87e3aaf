//! The signals of one way, and the paths that they go by.

ghost use Rattle.std.specs.Prelude.{◌≡◌, ◌<◌, ◌≤◌, ◌+◌, ◌⊎◌, OnOk, OnErr, IfErr, Some, slice_set, vec_len, vec_capacity, ◌++◌, ◌∷◌, []};
ghost use Rattle.agree.specs.Lines as spec;
ghost use Rattle.agree.specs.State as state_spec;
ghost use Rattle.agreement_laws.specs.Links.{with_accepted};
ghost use Rattle.chan_model.specs.Lent.{lent_up};
ghost use Rattle.chan_model.specs.Signals.{map_sent};
ghost use Rattle.chan_model.specs.declared.fault.Fault.TheVariants as fault_spec;

use chan_model::fault::Fault;
use chan_model::lent::LentUp;
use chan_model::names::Path;
use chan_model::signal::{Down, OnPath, Up};

/// Whether a path is up.
pub fn is_up(up: &[bool; 8], path: Path) -> bool
    ensures { result ≡ state_spec.is_up up.now path }
{
    up[path.index()]
}

/// The paths, of which this one is up or not.
pub fn with_path(up: &[bool; 8], path: Path, is_up: bool) -> [bool; 8]
    ensures { result ≡ slice_set up.now path is_up }
{
    let mut new = *up;
    new[path.index()] = is_up;
    new
}

/// Makes room for one more, where a list has none. Where no memory is left the list stays full.
fn make_slot<T>(list: &mut Vec<T>) -> Result<(), Fault>
    ensures items { list.new.items ≡ list.old.items }
    ensures len { vec_len list.new ≡ vec_len list.old }
    ensures capacity { vec_capacity list.old ≤ vec_capacity list.new }
    ensures index { OnOk result (vec_len list.new < vec_capacity list.new) }
    ensures full { OnErr result (vec_capacity list.new ≤ vec_len list.new) }
    ensures fault { IfErr result (λ f. f ≡ fault_spec.NoMemory) }
{
    if list.reserve(1).is_err() {
        return Err(Fault::NoMemory);
    }
    Ok(())
}

/// Adds one more, for which there is room.
fn add<T: Drop>(list: &mut Vec<T>, value: T)
    requires { vec_len list.old < vec_capacity list.old }
    ensures items { list.new.items ≡ list.old.items ++ value ∷ [] }
    ensures len { vec_len list.new ≡ vec_len list.old + 1 }
    ensures capacity { vec_capacity list.old ≤ vec_capacity list.new }
{
    let _ = list.push(value);
}

/// Sends a signal to the unit. On a path that is down it vanishes.
pub fn post(
    downs: &mut Vec<OnPath<Down>>,
    up: &[bool; 8],
    signal: OnPath<Down>,
) -> Result<(), Fault>
    ensures sent { OnOk result (downs.new.items ≡ spec.queue_with_sent up.now downs.old.items (Some signal)) }
    ensures same { OnErr result (downs.new.items ≡ downs.old.items) }
    ensures len { OnOk result (vec_len downs.new ≤ vec_len downs.old + 1) }
    ensures same_len { OnErr result (vec_len downs.new ≡ vec_len downs.old) }
    ensures capacity { vec_capacity downs.old ≤ vec_capacity downs.new }
    ensures fault { IfErr result (λ f. f ≡ fault_spec.NoMemory) }
    ensures full { OnErr result (vec_capacity downs.new ≤ vec_len downs.new) }
{
    if !is_up(up, signal.path) {
        return Ok(());
    }
    make_slot(downs)?;
    add(downs, signal);
    Ok(())
}

/// Makes room for a signal from the unit, and for the number that it may accept.
pub fn make_room(ups: &mut Vec<OnPath<Up>>, accepted: &mut Vec<u64>) -> Result<(), Fault>
    ensures ups { ups.new.items ≡ ups.old.items }
    ensures ups_len { vec_len ups.new ≡ vec_len ups.old }
    ensures ups_capacity { vec_capacity ups.old ≤ vec_capacity ups.new }
    ensures accepted { accepted.new.items ≡ accepted.old.items }
    ensures accepted_len { vec_len accepted.new ≡ vec_len accepted.old }
    ensures accepted_capacity { vec_capacity accepted.old ≤ vec_capacity accepted.new }
    ensures room { OnOk result (vec_len ups.new < vec_capacity ups.new) }
    ensures room_accepted { OnOk result (vec_len accepted.new < vec_capacity accepted.new) }
    ensures fault { IfErr result (λ f. f ≡ fault_spec.NoMemory) }
    ensures full { OnErr result ((vec_capacity ups.new ≤ vec_len ups.new) ⊎ (vec_capacity accepted.new ≤ vec_len accepted.new)) }
{
    make_slot(ups)?;
    make_slot(accepted)
}

/// Sends a signal from the unit, for which there is room. On a path that is down it vanishes.
pub fn send_up(
    ups: &mut Vec<OnPath<Up>>,
    accepted: &mut Vec<u64>,
    up: &[bool; 8],
    sent: &Option<OnPath<LentUp<'_>>>,
)
    requires room { vec_len ups.old < vec_capacity ups.old }
    requires room_accepted { vec_len accepted.old < vec_capacity accepted.old }
    ensures ups { ups.new.items ≡ spec.queue_with_sent up.now ups.old.items (map_sent lent_up sent.now) }
    ensures ups_len { vec_len ups.new ≤ vec_len ups.old + 1 }
    ensures ups_capacity { vec_capacity ups.old ≤ vec_capacity ups.new }
    ensures accepted { accepted.new.items ≡ with_accepted accepted.old.items (map_sent lent_up sent.now) }
    ensures accepted_len { vec_len accepted.new ≤ vec_len accepted.old + 1 }
    ensures accepted_capacity { vec_capacity accepted.old ≤ vec_capacity accepted.new }
{
    if let Some(signal) = sent {
        if let Up::Accept { number } = *signal.signal.kept {
            add(accepted, number);
        }
        if is_up(up, signal.path) {
            add(ups, signal.own());
        }
    }
}

/// The signals to the unit on a path vanish.
pub fn cut_downs(downs: &mut Vec<OnPath<Down>>, path: Path)
    ensures cut { downs.new.items ≡ spec.without_path downs.old.items path }
    ensures len { vec_len downs.new ≤ vec_len downs.old }
    ensures capacity { vec_capacity downs.new ≡ vec_capacity downs.old }
{
    downs.retain(|signal| !signal.path.same(path));
}

/// The signals from the unit on a path vanish.
pub fn cut_ups(ups: &mut Vec<OnPath<Up>>, path: Path)
    ensures cut { ups.new.items ≡ spec.without_path ups.old.items path }
    ensures len { vec_len ups.new ≤ vec_len ups.old }
    ensures capacity { vec_capacity ups.new ≡ vec_capacity ups.old }
{
    ups.retain(|signal| !signal.path.same(path));
}
