//! All that is returned by reference. It is read and written, and allocates nothing.
ghost use Rattle.std.specs.Prelude.{◌<◌, length};

use crate::reporting::{put, put_line, report};
use byte_devices::Sink;
use can_check::{Diagnostic, write_lines};
use can_layout::{Chain, Decoder, Link, Meter, Plan, Reading};
use can_session::Session;
use dbc_model::print;
use dbc_records::Database;

// What signals are read from: alternating bits.
const DATA: [u8; 8] = [0xA5; 8];

const OTHER_DATA: [u8; 8] = [0x5A; 8];

/// How often something was made.
pub(crate) fn show_meter<W: Sink>(sink: &mut W, meter: &Meter) {
    let (plans, pictures, lines) = (meter.plans(), meter.pictures(), meter.lines());
    report(sink, format_args!("meter {plans} {pictures} {lines}"));
}

/// The canonical text of a database.
pub(crate) fn show_database<W: Sink>(sink: &mut W, database: &Database) {
    let _ = print(database, sink);
}

/// Diagnostics.
pub(crate) fn show_diagnostics<W: Sink>(sink: &mut W, diagnostics: &[Diagnostic]) {
    let _ = write_lines(diagnostics, sink);
}

// The parent multiplexor of a signal.
fn show_link<W: Sink>(sink: &mut W, link: &Link) {
    let switch = link.switch;
    report(sink, format_args!("below {switch}"));
    for range in link.ranges() {
        let (first, last) = (range.first, range.last);
        report(sink, format_args!("from {first} to {last}"));
    }
}

// The multiplexing chain from a signal.
fn show_chain<W: Sink>(sink: &mut W, chain: &Option<Chain>, most: usize) {
    let Some(chain) = chain else {
        report(sink, "never");
        return;
    };
    for up in 0..most {
        match chain.link(up) {
            Some(link) => show_link(sink, link),
            None => return,
        }
    }
}

// How values are read.
fn show_decoder<W: Sink>(sink: &mut W, decoder: &Decoder) {
    let (signed, scale) = (decoder.value_type.is_signed(), decoder.scale);
    report(sink, format_args!("signed {signed} {scale:?}"));
    put_line(sink, decoder.unit.as_bytes());
    for entry in decoder.entries() {
        report(sink, entry.number);
        put_line(sink, entry.text.as_bytes());
    }
}

// How a signal is read.
fn show_reading<W: Sink>(sink: &mut W, reading: &Reading) {
    match reading {
        Reading::Refused(cause) => put_line(sink, cause.word()),
        Reading::Read(decoder) => show_decoder(sink, decoder),
    }
}

// What a signal is in data.
fn show_value<W: Sink>(sink: &mut W, plan: &Plan, signal: usize, data: &[u8])
    requires { signal < length plan.now.rows }
{
    let present = plan.present(signal, data);
    let raw = plan.raw(signal, data);
    let value = plan.raw_value(signal, data);
    report(
        sink,
        format_args!("present {present} raw {raw} value {value}"),
    );
}

// A plan's row for a signal.
fn show_row<W: Sink>(sink: &mut W, plan: &Plan, signal: usize)
    requires { signal < length plan.now.rows }
{
    let row = plan.row(signal);
    put_line(sink, row.name.as_bytes());
    let field = row.field;
    report(sink, format_args!("{field:?}"));
    show_chain(sink, &row.chain, plan.signals());
    show_reading(sink, &row.reading);
    show_value(sink, plan, signal, &DATA);
    show_value(sink, plan, signal, &OTHER_DATA);
}

/// All that a plan returns by reference.
pub(crate) fn show_plan<W: Sink>(sink: &mut W, plan: &Plan) {
    let size = plan.size();
    report(sink, format_args!("plan {size}"));
    for signal in 0..plan.signals() {
        show_row(sink, plan, signal);
    }
}

// The plans and diagrams of a session.
fn show_layouts<W: Sink>(sink: &mut W, session: &Session) {
    for index in 0..session.database().messages.len() {
        show_plan(sink, session.plan(index));
        put(sink, session.picture(index));
    }
}

// The lines of a session and their texts.
fn show_lines<W: Sink>(sink: &mut W, session: &Session) {
    for n in 0..session.line_count() {
        put_line(sink, session.line(n));
        put_line(sink, session.decoded(n));
    }
}

/// All that a session returns by reference, the meter last.
pub(crate) fn show_session<W: Sink>(sink: &mut W, session: &Session) {
    show_database(sink, session.database());
    report(sink, "diagnostics");
    show_diagnostics(sink, session.diagnostics());
    show_layouts(sink, session);
    report(sink, "lines");
    show_lines(sink, session);
    show_meter(sink, session.meter());
}
