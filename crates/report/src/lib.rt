// Reports on run sheets, as text: what a sheet says, line by line, and that writing it gives its bytes back,
// or why it is refused. Uses `value`, `sheet` and the standard library.
#![tactic(auto)]

mod again;
mod answer;
mod lines;
mod operations;
mod whole;

pub use answer::Report;
pub use whole::report;
