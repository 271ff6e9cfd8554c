//! Laws of the JSON objects of lines, databases, diagnostics, faults and locations. The functions do nothing, or call the law of
//! log lines: what they ensure is the law.
#![tactic(auto)]

mod databases;
mod findings;
mod lines;

pub use databases::{messages_parse_back, rest_parses_back, signals_are_as_planned};
pub use findings::{faults_parse_back, findings_parse_back, locations_parse_back};
pub use lines::{
    keys_are_unique, objects_are_lines, parses_back, reports_no_less, values_are_exact,
};
