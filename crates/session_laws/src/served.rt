//! Scripts that run in a session of their own.
ghost use Rattle.std.specs.Prelude.{◌≡◌, IfOk, IfErr, Err};
ghost use Rattle.dbc_reader.specs.Texts.{IsRead};
ghost use Rattle.session_laws.specs.Scripts.{ServesText};
ghost use Rattle.session_laws.specs.SessionView.{shown, FromScratch};

use crate::laws::{lines_lead, serve_follows_run, shown_from_scratch};
use byte_devices::{Sink, Source};
use can_line_stream::StreamFault;
use can_session::{Options, Session};
use dbc_tokens::ReadFault;
use session_script::serve;
use std::alloc::Global;

/// The session that a script led to, and how the script ended.
#[derive(Drop)]
pub struct Served {
    /// The session.
    pub session: Session,
    /// How many commands the script had, or why it ended early.
    pub ended: Result<u64, StreamFault>,
}

/// Opens a session on a text with these options, and runs a script in it. If the text has no database, returns its first fault;
/// running out of memory for the database is a fault of line 0.
pub fn serve_text<R: Source, W: Sink>(
    alloc: Global,
    text: &[u8],
    options: Options,
    source: &mut R,
    sink: &mut W,
) -> Result<Served, ReadFault>
    ensures serves { IfOk result (λ served. ServesText text.now options (W.written sink.old) (R.unread source.old)
        (R.unread source.new) served.session.state (W.written sink.new) served.ended) }
    ensures shows { IfOk result (λ served. FromScratch served.session.state (shown served.session.state.options.short
        served.session.state.database served.session.state.lines)) }
    ensures fault { IfErr result (λ fault. IsRead text.now (Err fault)) }
{
    let mut session = Session::open_with(alloc, text, options)?;
    let ended = serve(alloc, &mut session, source, sink);
    serve_follows_run();
    lines_lead();
    shown_from_scratch(&session);
    Ok(Served { session, ended })
}
