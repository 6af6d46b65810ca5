//! Lines: what the program reads and prints, and how bytes are cut into lines.
#![tactic(auto)]

mod cutting;
mod input_line;
mod laws;
mod limits;
mod line_fault;
mod output_line;
mod printing;
mod reading;
mod result_name;
mod rule;
mod settlement;
mod spelling;
mod status;
mod taken;
#[cfg(test)]
mod tests;
mod told;
mod turned;
mod verdict;
mod words;

pub use cutting::{CutLine, Cutter};
pub use input_line::InputLine;
pub use laws::{LineByLine, LineMachine, cuts_joined, cuts_pieces, fuses, gives_status, stays_due};
pub use line_fault::LineFault;
pub use output_line::OutputLine;
pub use printing::print_line;
pub use reading::read_line;
pub use result_name::ResultName;
pub use rule::Rule;
pub use settlement::Settlement;
pub use spelling::{reads_named, reads_shaped, reads_spelled};
pub use status::Status;
pub use taken::{begins, read_if, rule_of};
pub use told::{push_bad, too_long_line};
pub use turned::Turned;
pub use verdict::Verdict;
pub use words::{read_bytes, read_number, split_words};
