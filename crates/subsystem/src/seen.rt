//! What every history keeps by its entries alone, gathered from the laws.

ghost use Rattle.std.specs.Prelude.{List};
ghost use Rattle.chan_events.specs.declared.reply.Entry.{Entry};
ghost use Rattle.channel_config.specs.Lawful.{IsLawful};
ghost use Rattle.channel_config.specs.Setup.{Setup, set_count};
ghost use Rattle.run_laws.specs.StateClaims.{IsClearedOnce};
ghost use Rattle.machine_model.specs.State.{State, opening_of};
ghost use Rattle.machine_model.specs.Steps.{Run};
ghost use Rattle.run_laws.specs.Losses.{AreLossesShown};
ghost use Rattle.subsystem.specs.Headline.{HeadlineHolds};

use run_laws::agreement::{both_agree, links, one_holder};
use run_laws::beginnings::{
    beginnings, begins_its_own, dedicated_offers, last_used, logical_offers,
};
use run_laws::codes::{codes, path_reports, requests};
use run_laws::halts_and_losses::{halts, losses};
use run_laws::paths::{by_its_path, device_paths, one_engine};
use run_laws::programs::told_by_entries;
use run_laws::status_word::{choices, deferred_codes, functions, serials, status_bytes};

/// In each run of a lawful set-up the headline holds of the entries.
pub fn headline()
    ensures holds { (setup : Setup) (h : List Entry) (s : State) → IsLawful setup → Run (opening_of setup) h s → HeadlineHolds setup h }
{
    by_its_path();
    device_paths();
    one_engine();
    links();
    one_holder();
    both_agree();
    begins_its_own();
    dedicated_offers();
    logical_offers();
    last_used();
    beginnings();
    cleared_once();
    codes();
    functions();
    serials();
    deferred_codes();
    status_bytes();
    losses();
    silent();
    requests();
    choices();
    halts();
    path_reports();
    told_by_entries();
}

/// In each run each status is cleared by at most one TEST SUBCHANNEL.
fn cleared_once()
    ensures { (setup : Setup) (h : List Entry) (s : State) → Run (opening_of setup) h s → IsClearedOnce (set_count setup) h }
{
    run_laws::clearing::serials();
}

/// In each run a lost path, or a Notice, that makes no status of an enabled subchannel leaves its status word.
fn silent()
    ensures { (setup : Setup) (h : List Entry) (s : State) → Run (opening_of setup) h s → AreLossesShown (set_count setup) h }
{
    run_laws::status_word::losses();
}
