//! Single failures, with their output and messages typed out.

ghost use Rattle.std.specs.Prelude.{◌<◌};

use super::*;

/// The device that fails, after this number of bytes.
enum Failing {
    Reader(usize),
    Writer(usize),
    Messages(usize),
}

/// A compaction over a device that fails, and its results.
struct Row {
    name: &'static str,
    input: &'static str,
    skip: bool,
    failing: Failing,
    /// The lines that are written, and the bytes after them.
    lines: &'static str,
    output: &'static [u8],
    messages: &'static str,
    at: At,
}

/// Returns devices of which one fails; the reader returns one byte per call.
fn devices(failing: &Failing) -> Devices
    ensures { 0 < result.at_most }
{
    let good = Devices {
        written_at_most: ROOM,
        ..good(1)
    };
    match failing {
        Failing::Reader(given) => Devices {
            reads: Plan::from_then_on(When::AfterBytes(*given)),
            ..good
        },
        Failing::Writer(taken) => Devices {
            writes: Plan::from_then_on(When::AfterBytes(*taken)),
            ..good
        },
        Failing::Messages(taken) => Devices {
            reports: Plan::from_then_on(When::AfterBytes(*taken)),
            ..good
        },
    }
}

fn passes(alloc: Global, row: &Row) -> Result<bool, Fail> {
    let input = text(alloc, row.input)?;
    let mut output = text(alloc, row.lines)?;
    output.extend_from_slice(row.output)?;
    let reported = text(alloc, row.messages)?;
    let devices = devices(&row.failing);
    let left = run(alloc, Tool::Compact, row.skip, input.as_slice(), devices)?;
    Ok(
        left.outcome == outcome_at(row.at)
            && left.writer.contents() == output.as_slice()
            && left.messages.contents() == reported.as_slice(),
    )
}

const ROWS: &[Row] = &[
    // Three header lines of 81, 80 and 74 bytes, two epochs of 36 and 18
    Row {
        name: "the reader fails after line 7 and its LF",
        input: "H|E1|E2|E3|E4|E5",
        skip: false,
        failing: Failing::Reader(343),
        lines: "K|H|F1|C2",
        output: b"",
        messages: "ERROR line 8 code 20: read failed",
        at: At {
            line: 8,
            fault: Fault::ReadFailed,
        },
    },
    Row {
        name: "the reader fails after the first 3 bytes of line 7",
        input: "H|E1|E2|E3|E4|E5",
        skip: false,
        failing: Failing::Reader(328),
        lines: "K|H|F1",
        output: b"",
        messages: "ERROR line 7 code 20: read failed",
        at: At {
            line: 7,
            fault: Fault::ReadFailed,
        },
    },
    Row {
        name: "the writer fails after 30 bytes",
        input: "H",
        skip: false,
        failing: Failing::Writer(30),
        lines: "",
        output: b"3.0                 COMPACT RI",
        messages: "ERROR line 1 code 21: write failed",
        at: At {
            line: 1,
            fault: Fault::WriteFailed,
        },
    },
    Row {
        name: "a warning can't be written",
        input: "H|E1|B2|E3|E4|E5",
        skip: true,
        failing: Failing::Messages(0),
        lines: "K|H|F1",
        output: b"",
        messages: "",
        at: At {
            line: 7,
            fault: Fault::WriteFailed,
        },
    },
    Row {
        name: "the message of a fault can't be written",
        input: "H|E1|B2|E3|E4|E5",
        skip: false,
        failing: Failing::Messages(0),
        lines: "K|H|F1",
        output: b"",
        messages: "",
        at: At {
            line: 7,
            fault: Fault::BadFlags,
        },
    },
];

#[test]
fn a_device_fails(rt: HostRuntime) -> Result<(), Fail> {
    for row in ROWS {
        expect(&rt, passes(rt.alloc(), row)?, row.name);
    }
    Ok(())
}
