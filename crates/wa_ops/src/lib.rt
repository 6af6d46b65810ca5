//! WebAssembly instructions and their trees, with the definitions that the checks and the interpreter share.
#![tactic(auto)]

mod bound;
mod call_no;
mod ends;
mod hook_rules;
mod items;
mod modules;
mod op;
mod opcode;
mod rows;
mod rule_fault;
mod sequence;

pub use bound::finer_bound;
pub use call_no::CallNo;
pub use ends::{behind_by_size, matching_ends};
pub use hook_rules::rules_by_name;
pub use items::{Items, NoMemory};
pub use modules::{
    Code, Element, FuncType, Import, ImportItem, Limits, Module, ModuleExport, ModuleGlobal,
    Segment,
};
pub use op::{Op, ValueType};
pub use opcode::{Form, form_of};
pub use rows::{call_answer, call_by_name, call_parameters};
pub use rule_fault::RuleFault;
pub use sequence::{one_tree, tree_reads};

#[cfg(test)]
mod tests;
