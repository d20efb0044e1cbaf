//! The four tools, and the program that chooses one, over readers and writers that fail at a call.
use super::ends::{Feed, Sink};
use crate::rows::expect_word;
use fio_tool::{Ending, Tool, ToolFault, run_program, run_tool};
use std::alloc::Global;
use std::process::Abort;

/// A tool, what it reads, what it then writes, and how it ends.
type Row = (Tool, &'static [u8], &'static [u8], Ending);

const ROWS: [Row; 4] = [
    (
        Tool::Show,
        b"3605\n\nzz",
        b"poll block 5\nline 3: bad line\n",
        Ending::Bad,
    ),
    (
        Tool::Simulate,
        b"fio2070 script 1 2 0\npoll",
        b"1 sent 1 3600\ncounter 0\nnumber 0\nwaiting 0\nrecord 0\n",
        Ending::Good,
    ),
    (Tool::Check, b"> 3605", b"good 1 frames\n", Ending::Good),
    (
        Tool::Record,
        b"> 3605\n< b605000000000000",
        b"record 0\n",
        Ending::Good,
    ),
];

/// Fails the test if its row does not hold, and shows the tool and the number of the call that fails, or 0 if none does.
fn expect_tool(rt: &impl Abort, tool: Tool, call: usize, holds: bool) {
    assert!(*rt; holds, "{tool:?}, call {call}");
}

/// A reader that fails at this call, or never for 0.
fn feed(octets: &[u8], failing: usize) -> Feed<'_> {
    Feed {
        octets,
        is_endless: false,
        calls: 0,
        failing,
    }
}

/// Reads and writes one octet in each call, and returns whether the tool ends as expected with the whole text, having asked
/// for each octet and for the end once.
fn passes_octets(alloc: Global, (tool, input, text, expected): Row) -> bool {
    let mut feed = feed(input, 0);
    let mut sink = Sink::new(alloc);
    run_tool(alloc, tool, &mut feed, &mut sink) == Ok(expected)
        && feed.calls == input.len().saturating_add(1)
        && sink.calls == text.len()
        && has_whole(&sink, text)
}

/// Whether a text is written, and flushed once.
fn has_whole(sink: &Sink, text: &[u8]) -> bool {
    sink.octets.as_slice() == text && sink.flushes == 1
}

/// Fails the test at the first row whose octets do not pass.
fn expect_octets(rt: &impl Abort, alloc: Global, rows: &[Row]) {
    for row in rows {
        expect_tool(rt, row.0, 0, passes_octets(alloc, *row));
    }
}

#[test]
fn an_octet_a_call(rt: HostRuntime) {
    expect_octets(&rt, rt.alloc(), &ROWS);
}

/// Whether the tool ends at this read, which fails, and writes nothing.
fn ends_at_read(alloc: Global, tool: Tool, input: &[u8], failing: usize) -> bool {
    let mut feed = feed(input, failing);
    let mut sink = Sink::new(alloc);
    run_tool(alloc, tool, &mut feed, &mut sink) == Err(ToolFault::Read)
        && feed.calls == failing
        && sink.calls == 0
}

/// Fails the test at the first read at which the tool does not end.
fn expect_reads(rt: &impl Abort, alloc: Global, (tool, input, _, _): Row) {
    for failing in 1..input.len() + 2 {
        expect_tool(rt, tool, failing, ends_at_read(alloc, tool, input, failing));
    }
}

/// Each error is final, although it is that of an interrupted call.
#[test]
fn each_read_may_fail(rt: HostRuntime) {
    for row in &ROWS {
        expect_reads(&rt, rt.alloc(), *row);
    }
}

/// Whether the tool ends at this write, which fails or takes nothing, with the octets before it written.
fn ends_at_write(
    alloc: Global,
    (tool, input, text, _): Row,
    failing: usize,
    takes_none: bool,
) -> bool {
    let mut sink = Sink::new(alloc);
    sink.failing = failing;
    sink.takes_none = takes_none;
    run_tool(alloc, tool, &mut feed(input, 0), &mut sink) == Err(ToolFault::Write)
        && sink.calls == failing
        && text.get(..failing.saturating_sub(1)) == Some(sink.octets.as_slice())
}

/// Fails the test at the first write at which the tool does not end.
fn expect_writes(rt: &impl Abort, alloc: Global, row: Row) {
    for failing in 1..row.2.len() + 1 {
        let ends = ends_at_write(alloc, row, failing, false)
            && ends_at_write(alloc, row, failing, true);
        expect_tool(rt, row.0, failing, ends);
    }
}

/// Each error is final, although it is that of an interrupted call.
#[test]
fn each_write_may_fail(rt: HostRuntime) {
    for row in &ROWS {
        expect_writes(&rt, rt.alloc(), *row);
    }
}

/// Whether the tool ends at the flush, which fails, with the whole text written.
fn ends_at_flush(alloc: Global, (tool, input, text, _): Row) -> bool {
    let mut sink = Sink::new(alloc);
    sink.is_flush_failing = true;
    run_tool(alloc, tool, &mut feed(input, 0), &mut sink) == Err(ToolFault::Write)
        && has_whole(&sink, text)
}

#[test]
fn the_flush_may_fail(rt: HostRuntime) {
    for row in &ROWS {
        expect_tool(&rt, row.0, 0, ends_at_flush(rt.alloc(), *row));
    }
}

/// Whether the tool reads one octet more than an input may have, and then reports that it is too long.
fn ends_at_limit(alloc: Global, tool: Tool) -> bool {
    let mut feed = feed(b"\n", 0);
    feed.is_endless = true;
    let mut sink = Sink::new(alloc);
    run_tool(alloc, tool, &mut feed, &mut sink) == Ok(Ending::Bad)
        && sink.octets.as_slice() == b"input too long\n".as_slice()
        && feed.calls == 1_048_577
}

#[test]
fn endless_inputs_end_at_the_limit(rt: HostRuntime) {
    for row in &ROWS {
        expect_tool(&rt, row.0, 0, ends_at_limit(rt.alloc(), row.0));
    }
}

/// Whether the program, given the word of a tool, reports this fault if its first read or its first write fails.
fn reports(alloc: Global, word: &str, read: usize, write: usize, fault: &[u8]) -> bool {
    let mut sink = Sink::new(alloc);
    sink.failing = write;
    run_program(
        alloc,
        &["fio2070", word],
        &mut feed(b"3605", read),
        &mut sink,
    ) == 3
        && sink.octets.as_slice() == fault
}

#[test]
fn faults_are_reported(rt: HostRuntime) {
    for word in ["show", "simulate", "check", "record"] {
        let read = reports(rt.alloc(), word, 1, 0, b"fio2070: read fault\n");
        let write = reports(rt.alloc(), word, 0, 1, b"fio2070: write fault\n");
        expect_word(&rt, word, read && write);
    }
}
