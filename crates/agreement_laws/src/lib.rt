//! Subsystem and device agree on the program that holds the device, whatever signals are lost, repeated or reordered:
//! theorems over the definitions alone.
#![tactic(auto)]

ghost use Rattle.std.specs.Prelude.{◌≡◌, ◌<◌, ℕ, true, Contains};
ghost use Rattle.chan_model.specs.declared.names.Side.{Side};
ghost use Rattle.chan_model.specs.declared.signal.OnPath.{OnPath};
ghost use Rattle.chan_model.specs.UnitTable.{side_of};
ghost use Rattle.chan_model.specs.UnitTable as unit_table;
ghost use Rattle.chan_model.specs.declared.signal.Down.TheVariants as down;
ghost use Rattle.chan_model.specs.Signals.{Up};
ghost use Rattle.chan_model.specs.declared.signal.Up.TheVariants as up;
ghost use Rattle.agreement_laws.specs.Links.{Links, link_of, opening_links};
ghost use Rattle.agreement_laws.specs.Moving.{LinkCause, LinksStep};
ghost use Rattle.agreement_laws.specs.Invariant.{IsGood};
ghost use Rattle.agreement_laws.specs.Claims.{IsSound, EndsByReset, IsPassed};

/// What holds of a unit, its subchannels and the signals between them: at the opening, and after each step from where it
/// held. It means that they agree, that one path moves data, and that each number is accepted at most once.
pub fn agreement()
    ensures opens { IsGood opening_links }
    ensures keeps { (old : Links) (cause : LinkCause) (new : Links) → IsGood old → LinksStep old cause new → IsGood new }
    ensures means { (w : Links) (side : Side) → IsGood w → IsSound w side }
{}

/// A reset that isn't yet taken ends only in a step where the unit takes it, and both sides agree right after.
pub fn resets()
    ensures { (old : Links) (cause : LinkCause) (new : Links) (side : Side) → IsGood old → LinksStep old cause new → EndsByReset old cause new side }
{}

/// Where a Busy may arrive, its number was never accepted, and will never be.
pub fn passing()
    ensures busy { (w : Links) (side : Side) (x : OnPath Up) (t : ℕ) → IsGood w → Contains (link_of w side).ups x → x.signal ≡ up.Busy t → IsPassed w side t }
    ensures stays { (old : Links) (cause : LinkCause) (new : Links) (side : Side) (t : ℕ) → IsGood old → LinksStep old cause new → IsPassed old side t → IsPassed new side t }
{}

/// A Reset that may arrive, and that the unit would take, is above the floor of its side.
pub fn rising()
    ensures { (w : Links) (side : Side) (p : ℕ) (r : ℕ) (b : ℕ) → IsGood w → Contains (link_of w side).downs (record { path = p; signal = down.Reset r b }) →
        unit_table.resets w.«unit» side r b ≡ true → (side_of w.«unit» side).floor < r }
{}
