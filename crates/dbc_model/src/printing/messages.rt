//! Messages and their signals.
ghost use Rattle.std.specs.Prelude.{◌≡◌, [], ◌∷◌};
ghost use Rattle.byte_devices.specs.Outs.{Sends};
ghost use Rattle.dbc_records.specs.Layout.{Order, item_text, layout_text};
ghost use Rattle.dbc_records.specs.CanonicalText.{sign_mark, head_layout, signal_name_layout, tag_layout, bit_field_layout};
ghost use Rattle.dbc_records.specs.CanonicalText.{scale_layout, limits_layout, receivers_layout};

use crate::printing::parts::{SpacedName, send_line_end, send_pair, send_spaced_text};
use crate::printing::style::{Style, send_list, send_separated};
use byte_devices::{Out, Sink, WriteFault};
use dbc_records::{Head, Message, Signal, Tag};
use dbc_values::Name;
use itoa::Buffer;

#[tactic(auto, unfolding(dbc_records::specs::Layout::layout_text, dbc_records::specs::CanonicalText::head_layout))]
fn send_head<W: Sink>(out: &mut Out<'_, W>, head: &Head) -> Result<(), WriteFault>
    ensures { Sends W.written out.old out.new result (layout_text (head_layout head.now)) }
{
    let mut number = Buffer::new();
    let mut size = Buffer::new();
    let pieces: [&[u8]; 9] = [
        b"BO_ ",
        number.format(head.number).as_bytes(),
        b" ",
        head.name.as_bytes(),
        b": ",
        size.format(head.size).as_bytes(),
        b" ",
        head.sender.as_bytes(),
        b"\n",
    ];
    out.send_pieces(&pieces)
}

#[tactic(auto, unfolding(dbc_records::specs::Layout::layout_text, dbc_records::specs::CanonicalText::signal_name_layout))]
fn send_signal_name<W: Sink>(out: &mut Out<'_, W>, signal: &Signal) -> Result<(), WriteFault>
    ensures { Sends W.written out.old out.new result (layout_text (signal_name_layout signal.now)) }
{
    out.send_pieces(&[b" SG_ ".as_slice(), signal.name.as_bytes()])
}

#[tactic(auto, unfolding(dbc_records::specs::Layout::layout_text, dbc_records::specs::CanonicalText::tag_layout))]
fn send_tag<W: Sink>(out: &mut Out<'_, W>, tag: Tag) -> Result<(), WriteFault>
    ensures { Sends W.written out.old out.new result (layout_text (tag_layout tag)) }
{
    let mut number = Buffer::new();
    match tag {
        Tag::Plain => Ok(()),
        Tag::Switch => out.send(b" M"),
        Tag::Muxed(n) => {
            let pieces: [&[u8]; 2] = [b" m", number.format(n).as_bytes()];
            out.send_pieces(&pieces)
        }
        Tag::Both(n) => {
            let pieces: [&[u8]; 3] = [b" m", number.format(n).as_bytes(), b"M"];
            out.send_pieces(&pieces)
        }
    }
}

fn order_of(intel: bool) -> &'static [u8]
    ensures { result.now ≡ item_text (Order intel) }
{
    if intel { b"1" } else { b"0" }
}

fn sign_of(signed: bool) -> &'static [u8]
    ensures { result.now ≡ sign_mark signed ∷ [] }
{
    if signed { b"-" } else { b"+" }
}

#[tactic(auto, unfolding(dbc_records::specs::Layout::layout_text, dbc_records::specs::CanonicalText::bit_field_layout))]
fn send_bit_field<W: Sink>(out: &mut Out<'_, W>, signal: &Signal) -> Result<(), WriteFault>
    ensures { Sends W.written out.old out.new result (layout_text (bit_field_layout signal.now)) }
{
    let mut start = Buffer::new();
    let mut length = Buffer::new();
    let pieces: [&[u8]; 7] = [
        b" : ",
        start.format(signal.start).as_bytes(),
        b"|",
        length.format(signal.length).as_bytes(),
        b"@",
        order_of(signal.intel),
        sign_of(signal.signed),
    ];
    out.send_pieces(&pieces)
}

#[tactic(auto, using(crate::proofs::Layouts::layouts), unfolding(dbc_records::specs::CanonicalText::scale_layout))]
fn send_scale<W: Sink>(out: &mut Out<'_, W>, signal: &Signal) -> Result<(), WriteFault>
    ensures { Sends W.written out.old out.new result (layout_text (scale_layout signal.now)) }
{
    send_pair(out, b'(', signal.factor, b',', signal.offset, b')')
}

#[tactic(auto, using(crate::proofs::Layouts::layouts), unfolding(dbc_records::specs::CanonicalText::limits_layout))]
fn send_limits<W: Sink>(out: &mut Out<'_, W>, signal: &Signal) -> Result<(), WriteFault>
    ensures { Sends W.written out.old out.new result (layout_text (limits_layout signal.now)) }
{
    send_pair(out, b'[', signal.minimum, b'|', signal.maximum, b']')
}

// A name after a comma.
struct FurtherReceiver;

impl Style<Name> for FurtherReceiver {
    ghost use Rattle.dbc_records.specs.CanonicalText.{further_receiver};

    ghost layout = { further_receiver };

    #[tactic(auto, unfolding(dbc_records::specs::Layout::layout_text, dbc_records::specs::CanonicalText::further_receiver))]
    fn send_item<W: Sink>(out: &mut Out<'_, W>, name: &Name) -> Result<(), WriteFault> {
        out.send_pieces(&[b",".as_slice(), name.as_bytes()])
    }
}

#[tactic(auto, using(crate::proofs::Layouts::layouts), unfolding(dbc_records::specs::CanonicalText::receivers_layout))]
fn send_receivers<W: Sink>(out: &mut Out<'_, W>, names: &[Name]) -> Result<(), WriteFault>
    ensures { Sends W.written out.old out.new result (layout_text (receivers_layout names.now)) }
{
    send_separated::<SpacedName, FurtherReceiver, Name, W>(out, names)
}

// A signal's line.
struct SignalLine;

impl Style<Signal> for SignalLine {
    ghost use Rattle.dbc_records.specs.CanonicalText.{signal_layout};

    ghost layout = { signal_layout };

    #[tactic(auto, using(crate::proofs::Layouts::layouts), unfolding(dbc_records::specs::CanonicalText::signal_layout))]
    fn send_item<W: Sink>(out: &mut Out<'_, W>, signal: &Signal) -> Result<(), WriteFault> {
        send_signal_name(out, signal)?;
        send_tag(out, signal.tag)?;
        send_bit_field(out, signal)?;
        send_scale(out, signal)?;
        send_limits(out, signal)?;
        send_spaced_text(out, &signal.unit)?;
        send_receivers(out, signal.receivers.as_slice())?;
        send_line_end(out)
    }
}

/// A message's line, and those of its signals.
pub(crate) struct MessageLines;

impl Style<Message> for MessageLines {
    ghost use Rattle.dbc_records.specs.CanonicalText.{message_layout};

    ghost layout = { message_layout };

    #[tactic(auto, using(crate::proofs::Layouts::layouts), unfolding(dbc_records::specs::CanonicalText::message_layout))]
    fn send_item<W: Sink>(out: &mut Out<'_, W>, message: &Message) -> Result<(), WriteFault> {
        send_head(out, &message.head)?;
        send_list::<SignalLine, Signal, W>(out, &message.signals)
    }
}
