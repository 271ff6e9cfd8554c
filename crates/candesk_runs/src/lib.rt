//! What each command except `session` does with a database and the standard streams.
//!
//! [`decode_run`], [`decode_json_run`], [`decode_csv_run`], [`print_run`], [`dump_run`], [`dump_json_run`], [`check_run`],
//! [`explain_run`], [`explain_json_run`] and [`locations_run`] state in their contracts what is written; [`ended`] and
//! [`ended_with_verdict`] make an exit status and the line of a fault of their outcomes.
#![tactic(auto)]

mod checking;
mod decoding;
mod dumping;
mod ending;
mod explaining;
mod fault;
mod finding_objects;
mod locating;
mod objects;
mod printing;
mod rows;

pub use can_decode::Short;
pub use can_line_stream::StreamFault;
pub use checking::{Verdict, check_run};
pub use decoding::{decode_json_run, decode_run};
pub use dumping::dump_run;
pub use ending::{ended, ended_with_verdict, report, status};
pub use explaining::explain_run;
pub use fault::RunFault;
pub use finding_objects::explain_json_run;
pub use locating::locations_run;
pub use objects::dump_json_run;
pub use printing::print_run;
pub use rows::decode_csv_run;
