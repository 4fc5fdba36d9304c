// Request lines for the test programs, in the format that oracle/README.md describes: read, and answered in one form. Nothing rests on what a
// line says; the functions are proved safe and ending, and what they compute shows when the answers agree.
#![tactic(auto)]

pub mod answer;
mod arguments;
mod draw;
pub mod files;
mod growing;
pub mod request;
pub mod values;
