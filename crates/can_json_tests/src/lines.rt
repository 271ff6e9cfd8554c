//! That each kind of line has its object.
ghost use Rattle.std.specs.Prelude.{◌<◌, IfOk, length};

use byte_devices::limp::Limp;
use can_decode::{Decoding, Short};
use can_json_lines::{JsonDecoding, json_stream_by};
use can_layout::Meter;
use dbc_reader::read;
use dbc_records::Database;
use std::alloc::Global;
use std::test::Fail;

const TEXT: &[u8] = b"\
BO_ 2566844672 CCVS: 8 N
 SG_ Speed : 8|16@1+ (0.00390625,0) [0|0] \"km/h\" N
 SG_ Brake : 28|2@1+ (1,0) [0|0] \"\" N
BO_ 291 A: 2 N
 SG_ S : 0|8@1- (0.1,0) [0|0] \"\xB0C\" N
 SG_ T : 8|8@1+ (1,0) [0|0] \"a\\\"b\r\n\" N
 SG_ Far : 16|8@1+ (1,0) [0|0] \"\" N
VAL_ 2566844672 Brake 0 \"released\" 1 \"pressed\" ;
BA_DEF_ BO_ \"VFrameFormat\" ENUM \"StandardCAN\",\"ExtendedCAN\",\"reserved\",\"J1939PG\";
BA_DEF_DEF_ \"VFrameFormat\" \"StandardCAN\";
BA_ \"VFrameFormat\" BO_ 2566844672 3;
";

const LOG: &[u8] = b"\
(0002.25) can0 18FEF131#FF8014FFFFFFFFFF
(0.000000) can0 18FEF131#FF80141FFFFFFFFF
(1.5)  vcan1\t123#F60A R
(1.5) c 123#F6
(1.5) c 123##1F6ff01 T x
(1.5) c 123#R
(1.5) c 20000123#0102
(1.5) c 124#0102
no frame \"\\
\xB0
";

const WANTED: &[u8] = b"\
{\"time\":2.25,\"interface\":\"can0\",\"id\":419361073,\"extended\":true,\"kind\":\"data\",\"data\":\"FF8014FFFFFFFFFF\",\"message\":\"CCVS\",\"number\":2566844672,\"j1939\":{\"pgn\":65265,\"priority\":6,\"source\":49},\"signals\":{\"Speed\":{\"value\":20.5,\"unit\":\"km/h\"},\"Brake\":{\"value\":3}}}
{\"time\":0.000000,\"interface\":\"can0\",\"id\":419361073,\"extended\":true,\"kind\":\"data\",\"data\":\"FF80141FFFFFFFFF\",\"message\":\"CCVS\",\"number\":2566844672,\"j1939\":{\"pgn\":65265,\"priority\":6,\"source\":49},\"signals\":{\"Speed\":{\"value\":20.5,\"unit\":\"km/h\"},\"Brake\":{\"value\":1,\"name\":\"pressed\"}}}
{\"time\":1.5,\"interface\":\"vcan1\",\"id\":291,\"extended\":false,\"kind\":\"data\",\"data\":\"F60A\",\"message\":\"A\",\"number\":291,\"signals\":{\"S\":{\"value\":-1,\"unit\":\"\xC2\xB0C\",\"unit_hex\":\"B043\"},\"T\":{\"value\":10,\"unit\":\"a\\\\\\\"b\\r\\n\"},\"Far\":{\"refused\":\"outside\"}},\"rest\":\"R\"}
{\"time\":1.5,\"interface\":\"c\",\"id\":291,\"extended\":false,\"kind\":\"data\",\"data\":\"F6\",\"message\":\"A\",\"number\":291,\"not_decoded\":\"wrong size\",\"size\":2}
{\"time\":1.5,\"interface\":\"c\",\"id\":291,\"extended\":false,\"kind\":\"fd\",\"data\":\"F6FF01\",\"message\":\"A\",\"number\":291,\"signals\":{\"S\":{\"value\":-1,\"unit\":\"\xC2\xB0C\",\"unit_hex\":\"B043\"},\"T\":{\"value\":255,\"unit\":\"a\\\\\\\"b\\r\\n\"},\"Far\":{\"refused\":\"outside\"}},\"rest\":\"T x\"}
{\"time\":1.5,\"interface\":\"c\",\"id\":291,\"extended\":false,\"kind\":\"remote\",\"not_decoded\":\"remote frame\"}
{\"time\":1.5,\"interface\":\"c\",\"id\":291,\"extended\":true,\"kind\":\"error\",\"not_decoded\":\"error frame\"}
{\"time\":1.5,\"interface\":\"c\",\"id\":292,\"extended\":false,\"kind\":\"data\",\"data\":\"0102\",\"not_decoded\":\"unknown id\"}
{\"line\":\"no frame \\\"\\\\\"}
{\"line\":\"\xC2\xB0\",\"line_hex\":\"B0\"}
";

fn database(alloc: Global) -> Result<Database, Fail> {
    match read(alloc, TEXT) {
        Ok(database) => Ok(database),
        _ => Err(Fail::from("no database")),
    }
}

fn written(alloc: Global, decoding: &Decoding) -> Result<bool, Fail> {
    let mut meter = Meter::new();
    let json = JsonDecoding::of(alloc, decoding)?;
    let mut source = Limp::new(LOG.to_vec(alloc)?, 4096, u64::MAX, usize::MAX);
    let mut sink = Limp::new(Vec::new(alloc), 1000, u64::MAX, usize::MAX);
    let ended = json_stream_by(alloc, &json, &mut meter, &mut source, &mut sink);
    Ok(ended == Ok(10) && sink.bytes() == WANTED)
}

#[test]
fn each_line_has_its_object(rt: std::rt::HostRuntime) -> Result<(), Fail> {
    let alloc = rt.alloc();
    let mut meter = Meter::new();
    let decoding = Decoding::of(alloc, database(alloc)?, Short::Refuse, &mut meter)?;
    if written(alloc, &decoding)? {
        Ok(())
    } else {
        Err(Fail::from("another output"))
    }
}
