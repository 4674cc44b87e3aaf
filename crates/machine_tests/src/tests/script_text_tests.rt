//! A line that is written at once, and refusals that no script meets. What else is printed, scripts show that `tools/scenes` and
//! `tools/stored` run, and that a beginning is where writing fails, `tools/failing`.

use chan_events::reply::Reply;
use chan_model::chunk::Chunk;
use chan_model::fault::Fault;
use script_text::{ActionResult, put_event_line, put_refusal};
use std::io;
use std::io::Write;
use storage_keys::StorageFault;
use streams::{CheckedWriter, Sink};

/// Takes what is written, and says whether all of it is this text, and how many calls wrote it.
#[derive(Drop)]
struct Compared<'a> {
    rest: &'a [u8],
    calls: u64,
    same: bool,
}

impl Write for Compared<'_> {
    fn write(&mut self, buf: &[u8]) -> io::Result<usize> {
        self.same = self.same && self.rest.starts_with(buf);
        self.rest = self.rest.get(buf.len()..).unwrap_or(&[]);
        self.calls = self.calls.wrapping_add(1);
        Ok(buf.len())
    }

    fn flush(&mut self) -> io::Result<()> {
        Ok(())
    }
}

/// A sink for this text.
fn comparing(text: &[u8]) -> CheckedWriter<Compared<'_>> {
    CheckedWriter::new(Compared {
        rest: text,
        calls: 0,
        same: true,
    })
}

/// How many calls a line of 64 bytes takes.
fn calls() -> u64 {
    let mut sink = comparing(&[]);
    let bytes = Chunk::of(&[0xC1; 64]);
    let _ = put_event_line(
        &mut sink,
        5,
        &Ok(ActionResult::Reply(Reply::Shown { bytes })),
    );
    sink.writer.calls
}

/// Whether a refusal is shown so.
fn is_refusal(refusal: &Fault, text: &[u8]) -> bool {
    let mut sink = comparing(text);
    put_refusal(&mut sink, refusal) && sink.writer.same && sink.writer.rest.is_empty()
}

#[test]
fn a_line_is_written_at_once_and_refusals_that_no_script_meets_are_shown(rt: HostRuntime) {
    let rows: [(Fault, &[u8]); 4] = [
        (Fault::NoMemory, b"refused 1"),
        (Fault::ConfigBad(1), b"refused 8"),
        (Fault::ScriptBad(1, 1), b"refused 9"),
        (
            Fault::Storage(StorageFault::Protection),
            b"refused 10 protection",
        ),
    ];
    for (refusal, text) in rows {
        assert!(rt; is_refusal(&refusal, text));
    }
    assert!(rt; calls() == 1);
}
