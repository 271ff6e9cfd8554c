//! The keys of objects.
ghost use Rattle.std.specs.Prelude.{◌≡◌, codes};
ghost use Rattle.can_json_texts.specs.Members.{Key as PlainKey};

use crate::flags::Flags;
use can_json_texts::Key;
use dbc_values::Memory;
use std::alloc::Global;

/// The keys of a signal's object.
#[derive(Drop)]
pub(crate) struct SignalKeys {
    /// The value.
    pub value: Key,
    /// Why there is none.
    pub refused: Key,
    /// The unit.
    pub unit: Key,
    /// The name of the value.
    pub name: Key,
    ghost is_value: { value ≡ record { mark = 123; name = codes "value" } },
    ghost is_refused: { refused ≡ record { mark = 123; name = codes "refused" } },
    ghost is_unit: { unit ≡ record { mark = 44; name = codes "unit" } },
    ghost is_name: { name ≡ record { mark = 44; name = codes "name" } },
}

impl SignalKeys {
    pub fn of(alloc: Global) -> Result<SignalKeys, Memory> {
        Ok(SignalKeys {
            value: Key::first(alloc, b"value")?,
            refused: Key::first(alloc, b"refused")?,
            unit: Key::further(alloc, b"unit")?,
            name: Key::further(alloc, b"name")?,
        })
    }
}

/// The keys of a J1939 message.
#[derive(Drop)]
pub(crate) struct GroupKeys {
    /// The parameter group.
    pub pgn: Key,
    /// The priority.
    pub priority: Key,
    /// The source address.
    pub source: Key,
    /// The destination address.
    pub destination: Key,
    ghost is_pgn: { pgn ≡ record { mark = 123; name = codes "pgn" } },
    ghost is_priority: { priority ≡ record { mark = 44; name = codes "priority" } },
    ghost is_source: { source ≡ record { mark = 44; name = codes "source" } },
    ghost is_destination: { destination ≡ record { mark = 44; name = codes "destination" } },
}

impl GroupKeys {
    pub fn of(alloc: Global) -> Result<GroupKeys, Memory> {
        Ok(GroupKeys {
            pgn: Key::first(alloc, b"pgn")?,
            priority: Key::further(alloc, b"priority")?,
            source: Key::further(alloc, b"source")?,
            destination: Key::further(alloc, b"destination")?,
        })
    }
}

/// The keys of a decoded frame.
#[derive(Drop)]
pub(crate) struct StatedKeys {
    /// The message.
    pub message: Key,
    /// Its CAN identifier.
    pub number: Key,
    /// The J1939 fields of its identifier, for a J1939 message.
    pub j1939: Key,
    /// The signals.
    pub signals: Key,
    /// Why they aren't decoded.
    pub not_decoded: Key,
    /// The length that data should have.
    pub size: Key,
    /// The keys of a J1939 message.
    pub group: GroupKeys,
    ghost is_message: { message ≡ record { mark = 44; name = codes "message" } },
    ghost is_number: { number ≡ record { mark = 44; name = codes "number" } },
    ghost is_j1939: { j1939 ≡ record { mark = 44; name = codes "j1939" } },
    ghost is_signals: { signals ≡ record { mark = 44; name = codes "signals" } },
    ghost is_not_decoded: { not_decoded ≡ record { mark = 44; name = codes "not_decoded" } },
    ghost is_size: { size ≡ record { mark = 44; name = codes "size" } },
}

impl StatedKeys {
    pub fn of(alloc: Global) -> Result<StatedKeys, Memory> {
        Ok(StatedKeys {
            message: Key::further(alloc, b"message")?,
            number: Key::further(alloc, b"number")?,
            j1939: Key::further(alloc, b"j1939")?,
            signals: Key::further(alloc, b"signals")?,
            not_decoded: Key::further(alloc, b"not_decoded")?,
            size: Key::further(alloc, b"size")?,
            group: GroupKeys::of(alloc)?,
        })
    }
}

/// The keys of a line.
#[derive(Drop)]
pub(crate) struct LineKeys {
    /// The line, if it has no frame.
    pub line: Key,
    /// When the frame came.
    pub time: Key,
    /// The interface on which it came.
    pub interface: Key,
    /// Its identifier.
    pub id: Key,
    /// Whether that is extended (29-bit), and what kind of frame it is.
    pub flags: Flags,
    /// Its bytes.
    pub bytes: Key,
    /// What follows it.
    pub rest: Key,
    ghost is_line: { line ≡ record { mark = 123; name = codes "line" } },
    ghost is_time: { time ≡ record { mark = 123; name = codes "time" } },
    ghost is_interface: { interface ≡ record { mark = 44; name = codes "interface" } },
    ghost is_id: { id ≡ record { mark = 44; name = codes "id" } },
    ghost is_bytes: { bytes ≡ record { mark = 44; name = codes "data" } },
    ghost is_rest: { rest ≡ record { mark = 44; name = codes "rest" } },
}

impl LineKeys {
    pub fn of(alloc: Global) -> Result<LineKeys, Memory> {
        Ok(LineKeys {
            line: Key::first(alloc, b"line")?,
            time: Key::first(alloc, b"time")?,
            interface: Key::further(alloc, b"interface")?,
            id: Key::further(alloc, b"id")?,
            flags: Flags::of(alloc)?,
            bytes: Key::further(alloc, b"data")?,
            rest: Key::further(alloc, b"rest")?,
        })
    }
}

/// All keys.
#[derive(Drop)]
pub(crate) struct Keys {
    /// The keys of a line.
    pub line: LineKeys,
    /// The keys of a decoded frame.
    pub stated: StatedKeys,
    /// The keys of a signal.
    pub signal: SignalKeys,
}

impl Keys {
    /// All keys, cached.
    pub fn of(alloc: Global) -> Result<Keys, Memory> {
        Ok(Keys {
            line: LineKeys::of(alloc)?,
            stated: StatedKeys::of(alloc)?,
            signal: SignalKeys::of(alloc)?,
        })
    }
}
