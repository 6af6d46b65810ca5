//! The assembler: the text of a hook, and the bytes of the module that it means.
#![tactic(auto)]

mod assembling;
mod draft;
mod fault;
mod instructions;
mod laws;
mod lines;
mod names;
mod numbers;
mod regions;
mod text_line;

pub use assembling::{assemble, read_module};
pub use draft::{Body, Draft, Part, Turn};
pub use fault::{AsmFault, AsmRule};
pub use laws::{assembled_fits, assembled_spells, worked_texts};
pub use lines::read_text_line;
pub use regions::Regions;
pub use text_line::{Constant, TextLine};
