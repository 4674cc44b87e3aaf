//! The texts of refusals.

use chan_model::fault::Fault;
use std::alloc::Global;
use storage_keys::StorageFault;

/// Whether a refusal says this; false where there is no memory.
fn says(alloc: Global, fault: Fault, text: &str) -> bool {
    match format!(in alloc; "{fault}") {
        Ok(said) => said.as_str() == text,
        Err(_) => false,
    }
}

/// Whether refusals, with numbers and without, say what they are.
fn say_what_they_are(alloc: Global) -> bool {
    let mut all = true;
    for (fault, text) in [
        (Fault::NoMemory, "no memory"),
        (Fault::ConfigBad(7), "configuration rule 7"),
        (Fault::ScriptBad(9, 2), "line 9, rule 2"),
        (
            Fault::Storage(StorageFault::Addressing),
            "storage: Addressing",
        ),
    ] {
        all = says(alloc, fault, text) && all;
    }
    all
}

#[test]
fn refusals_say_what_they_are(rt: HostRuntime) {
    assert!(rt; say_what_they_are(rt.alloc()));
}
