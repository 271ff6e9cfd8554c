//! The open session.
ghost use Rattle.std.specs.Prelude.{◌≡◌, ◌<◌, IfOk, Some, [], All, map, length, slice_get};
ghost use Rattle.std.specs.Option.{option_map};
ghost use Rattle.can_layout.specs.Plans.{plan_of};
ghost use Rattle.can_layout.specs.Diagrams.{picture_of};
ghost use Rattle.can_check.specs.AllFaults.{all_faults};
ghost use Rattle.can_decode.specs.DecodedLines.{decoded_line};
ghost use Rattle.dbc_edits.specs.Edits.{edited};
ghost use Rattle.session_log.specs.Touched.{edit_numbers};
ghost use Rattle.session_database.specs.CompiledMessage.{Raised, nothing_made};
ghost use Rattle.session_log.specs.Logs.{bytes_of};
ghost use Rattle.can_session.specs.States.{Applies, Adds, RaisedBy, Opens, usual};

use crate::compiled_bus::CompiledBus;
use crate::logged_edit::LoggedEdit;
use crate::options::{KeyedOptions, Options};
use can_check::Diagnostic;
use can_decode::Short;
use can_layout::{Meter, Plan};
use dbc_edits::{Edit, Refusal};
use dbc_reader::read;
use dbc_records::Database;
use dbc_text_buffer::TextBuffer;
use dbc_tokens::{Cause, ReadFault};
use dbc_values::Memory;
use session_database::{Accepted, CompiledDatabase};
use session_log::Log;
use std::alloc::Global;
use std::hash::RandomState;
use std::marker::Model;

// The most bytes of a kept line.
const MAX_LINE_SIZE: usize = 4_096;

// The space for longer texts isn't kept from one line to the next.
const MAX_BUFFER_SIZE: usize = 4_096;

/// A database that is edited and a log that is kept, with all that is shown of both.
///
/// What the readers return by reference is at every moment what making it from the database and the lines alone gives. They
/// allocate nothing, and raise no count of the meter.
#[derive(Drop)]
pub struct Session {
    alloc: Global,
    options: Options,
    shown: CompiledDatabase,
    log: Log,
    meter: Meter,
    // The buffer in which the texts of lines are made.
    buffer: TextBuffer,
}

impl Model for Session {
    ghost use Rattle.std.specs.Prelude.{map};
    ghost use Rattle.can_session.specs.States.{Open};
    ghost use Rattle.session_log.specs.Logs.{bytes_of};
    ghost use Rattle.can_session.specs.Sessions.{IsOpen};

    ghost Value = { Open };

    ghost view = { λ a. record {
      state = record { options = a.options; database = a.shown; lines = map bytes_of a.log };
      meter = a.meter;
    } };

    ghost invariant = { λ a. IsOpen (record { database = a.shown; short = a.options.short }) a.options.keep a.log };
}

// The log without lines, whose index hashes with these keys, if there are any.
fn log_of(alloc: Global, keys: Option<RandomState>) -> Log
    ensures { result ≡ [] }
{
    match keys {
        Some(keys) => Log::keyed(alloc, keys),
        None => Log::new(alloc),
    }
}

// The session of a database.
fn session_of(alloc: Global, database: Database, keyed: KeyedOptions) -> Result<Session, Memory>
    ensures database { IfOk result (λ session. session.state.database ≡ database) }
    ensures lines { IfOk result (λ session. session.state.lines ≡ []) }
    ensures options { IfOk result (λ session. session.state.options ≡ keyed.options) }
    ensures made { IfOk result (λ session. Raised (length database.messages) 0 nothing_made session.meter) }
{
    let mut meter = Meter::new();
    let shown = CompiledDatabase::of(alloc, database, &mut meter)?;
    Ok(Session {
        alloc,
        options: keyed.options,
        shown,
        log: log_of(alloc, keyed.keys),
        meter,
        buffer: TextBuffer::new(alloc),
    })
}

// Releases the capacity of a buffer in which a longer text was made.
fn limit_buffer(buffer: &mut TextBuffer) {
    if buffer.as_slice().len() > MAX_BUFFER_SIZE {
        *buffer = TextBuffer::new(buffer.allocator());
    }
}

const NO_MEMORY: ReadFault = ReadFault {
    line: 0,
    cause: Cause::Memory,
};

impl Session {
    /// The session of a text's database, in which truncated frames are refused and all lines are kept. If the text has no database,
    /// its first fault is returned; running out of memory is a fault of line 0.
    pub fn open(alloc: Global, text: &[u8]) -> Result<Session, ReadFault>
        ensures { Opens text.now usual result }
    {
        Session::open_with(alloc, text, Options::default())
    }

    /// The same, with the given options.
    pub fn open_with(alloc: Global, text: &[u8], options: Options) -> Result<Session, ReadFault>
        ensures { Opens text.now options result }
    {
        let keyed = KeyedOptions {
            options,
            keys: None,
        };
        Session::open_keyed(alloc, text, keyed)
    }

    /// The same, with keys for the index of the log.
    pub fn open_keyed(alloc: Global, text: &[u8], keyed: KeyedOptions) -> Result<Session, ReadFault>
        ensures { Opens text.now keyed.options result }
    {
        let database = read(alloc, text)?;
        match session_of(alloc, database, keyed) {
            Ok(session) => Ok(session),
            Err(Memory) => Err(NO_MEMORY),
        }
    }

    /// Applies an edit. A refused one changes nothing but the meter; running out of memory comes after all other refusals. Plans
    /// and diagrams are made only for messages that have one of the edit's CAN identifiers, and only lines whose frames these
    /// concern are decoded again.
    pub fn apply(&mut self, edit: &Edit) -> Result<(), Refusal>
        ensures step { Applies edit.now self.old.state result self.new.state }
        ensures meter { RaisedBy (edited self.old.state.database edit.now) (edit_numbers self.old.state.database edit.now)
            self.old.state.lines self.old.meter self.new.meter }
    {
        let accepted = Accepted::of(self.alloc, &self.shown, edit)?;
        let short = self.options.short;
        let logged = LoggedEdit {
            accepted,
            log: &self.log,
            short,
        };
        // All growths come first.
        let (shown, redecoded) = logged.made(self.alloc, &mut self.meter)?;
        // From here on nothing allocates.
        self.shown = shown;
        self.log.exchange(redecoded);
        Ok(())
    }

    /// Keeps a line, which holds no LF, according to the session's options. A refused one changes nothing but the meter: a line has
    /// at most 4,096 bytes, and if all lines are kept there is space for 1,048,576. If only the last ones are kept, a new one
    /// replaces the oldest, and the log is never full. Running out of memory comes last.
    pub fn add_line(&mut self, line: &[u8]) -> Result<(), Refusal>
        ensures step { Adds line.now self.old.state result self.new.state }
        ensures meter { Raised 0 1 self.old.meter self.new.meter }
    {
        if self.options.keep.is_full(self.log.len()) {
            return Err(Refusal::LogFull);
        }
        if line.len() > MAX_LINE_SIZE {
            return Err(Refusal::LongLine);
        }
        let bus = CompiledBus {
            shown: &self.shown,
            short: self.options.short,
        };
        let made = bus.line(&mut self.buffer, line, &mut self.meter);
        limit_buffer(&mut self.buffer);
        let made = made?;
        self.log.push(self.alloc, made)?;
        if self.log.len() > self.options.keep.most() {
            self.log.drop_first();
        }
        Ok(())
    }

    /// What was chosen as the session was opened.
    pub fn options(&self) -> Options
        ensures { result ≡ self.now.state.options }
    {
        self.options
    }

    /// The database.
    pub fn database(&self) -> &Database
        ensures { result.now ≡ self.now.state.database }
    {
        self.shown.database()
    }

    /// All diagnostics of the database.
    pub fn diagnostics(&self) -> &[Diagnostic]
        ensures { result.now ≡ all_faults self.now.state.database }
    {
        self.shown.diagnostics()
    }

    /// The decode plan of the message at an index.
    pub fn plan(&self, index: usize) -> &Plan
        requires { index < length self.now.state.database.messages }
        ensures { Some result.now ≡ option_map (plan_of self.now.state.database) (slice_get self.now.state.database.messages
            index) }
    {
        self.shown.plan(index)
    }

    /// The diagram of the message at an index.
    pub fn picture(&self, index: usize) -> &[u8]
        requires { index < length self.now.state.database.messages }
        ensures { Some result.now ≡ option_map (picture_of self.now.state.database) (slice_get self.now.state.database.messages
            index) }
    {
        self.shown.picture(index)
    }

    /// How many lines are kept.
    pub fn line_count(&self) -> usize
        ensures { result ≡ length self.now.state.lines }
    {
        self.log.len()
    }

    /// The line at an index, in order of arrival: 0 is the oldest that is kept.
    pub fn line(&self, n: usize) -> &[u8]
        requires { n < length self.now.state.lines }
        ensures { Some result.now ≡ slice_get self.now.state.lines n }
    {
        self.log.line(n).bytes.as_slice()
    }

    /// The decoded text of the line at an index, where 0 is the oldest that is kept: what decoding it by itself gives, with the
    /// database as it is and by the session's options.
    pub fn decoded(&self, n: usize) -> &[u8]
        requires { n < length self.now.state.lines }
        ensures { Some result.now ≡ option_map (decoded_line self.now.state.options.short self.now.state.database)
            (slice_get self.now.state.lines n) }
    {
        self.log.line(n).decoded.as_slice()
    }

    /// How often plans and diagrams were made, and lines decoded.
    pub fn meter(&self) -> &Meter
        ensures { result.now ≡ self.now.meter }
    {
        &self.meter
    }
}
