//! Printing lines.
ghost use Rattle.std.specs.Prelude.{◌≡◌, ◌++◌, ◌∷◌, [], string_bytes, IfOk, OnErr, OnOk};
ghost use Rattle.hk_base.specs.Hexadecimal.{hex_text};
ghost use Rattle.hk_lines.specs.Names.{trap_name};
ghost use Rattle.hk_lines.specs.OutputForms.{bytes_text, result_text, value_text, outcome_text, run_text, entry_text};
ghost use Rattle.hk_lines.specs.OutputForms.{line_text, IsNoRun, IsFinal};

use crate::{OutputLine, ResultName};
use hk_base::{AccountId, Hash256, Items, NoMemory, Outcome, Trap};
use std::alloc::Global;

/// Appends a line with its line feed. A refused call leaves `out` as it was.
pub fn print_line(out: &mut Vec<u8>, line: &OutputLine) -> Result<(), NoMemory>
    ensures ok { OnOk result (out.new.items ≡ out.old.items ++ line_text line.now) }
    ensures err { OnErr result (out.new.items ≡ out.old.items) }
{
    let text = write_line(*out.allocator(), line)?;
    out.extend_from_slice(text.as_bytes())
}

// The text of a line.
fn write_line(alloc: Global, line: &OutputLine) -> Result<String, NoMemory>
    ensures text { IfOk result (λ text. string_bytes text ≡ line_text line.now) }
{
    match line {
        OutputLine::Run {
            outcome,
            count,
            bound,
        } => {
            let run = write_run(alloc, outcome, *count, *bound)?;
            format!(in alloc; "{run}\n")
        }
        OutputLine::Hook {
            account,
            position,
            outcome,
            count,
            bound,
        } => {
            let account = write_hex(alloc, &account.0)?;
            let run = write_run(alloc, outcome, *count, *bound)?;
            format!(in alloc; "hook {account} {position} {run}\n")
        }
        OutputLine::Callback {
            account,
            position,
            outcome,
            count,
            bound,
        } => {
            let account = write_hex(alloc, &account.0)?;
            let run = write_run(alloc, outcome, *count, *bound)?;
            format!(in alloc; "callback {account} {position} {run}\n")
        }
        _ => write_event_line(alloc, line),
    }
}

// The text of a line that tells of no run.
fn write_event_line(alloc: Global, line: &OutputLine) -> Result<String, NoMemory>
    requires event { IsNoRun line.now }
    ensures text { IfOk result (λ text. string_bytes text ≡ line_text line.now) }
{
    match line {
        OutputLine::Ledger { seq } => format!(in alloc; "ledger {seq}\n"),
        OutputLine::Tx {
            number,
            result,
            fee,
        } => {
            let result = result.name();
            format!(in alloc; "tx {number} {result} fee {fee}\n")
        }
        OutputLine::Settled {
            number,
            word,
            result,
            fee,
        } => {
            let word = word.name();
            let result = name_or_dash(result);
            format!(in alloc; "settled {number} {word} {result} fee {fee}\n")
        }
        OutputLine::State {
            account,
            namespace,
            key,
            value,
        } => {
            let entry = write_entry(alloc, account, namespace, key)?;
            let value = write_value(alloc, value)?;
            format!(in alloc; "state {entry} {value}\n")
        }
        OutputLine::Emit {
            number,
            first,
            last,
        } => format!(in alloc; "emit {number} first {first} last {last}\n"),
        _ => write_final_line(alloc, line),
    }
}

// The text of a line that stands at the end.
fn write_final_line(alloc: Global, line: &OutputLine) -> Result<String, NoMemory>
    requires last { IsFinal line.now }
    ensures text { IfOk result (λ text. string_bytes text ≡ line_text line.now) }
{
    match line {
        OutputLine::FinalAccount {
            id,
            balance,
            sequence,
            hooks,
            states,
        } => {
            let id = write_hex(alloc, &id.0)?;
            format!(in alloc; "final account {id} {balance} {sequence} {hooks} {states}\n")
        }
        OutputLine::FinalInstall {
            account,
            position,
            hash,
            namespace,
        } => {
            let account = write_hex(alloc, &account.0)?;
            let hash = write_hex(alloc, &hash.0)?;
            let namespace = write_hex(alloc, &namespace.0)?;
            format!(in alloc; "final install {account} {position} {hash} {namespace}\n")
        }
        OutputLine::FinalState {
            account,
            namespace,
            key,
            value,
        } => {
            let entry = write_entry(alloc, account, namespace, key)?;
            let value = write_hex(alloc, value.as_slice())?;
            format!(in alloc; "final state {entry} {value}\n")
        }
        OutputLine::FinalQueued {
            number,
            first,
            last,
        } => format!(in alloc; "final queued {number} {first} {last}\n"),
        OutputLine::FinalTotal { balances, burnt } => format!(in alloc;
            "final total {balances} burnt {burnt}\n"
        ),
        OutputLine::Done => String::from_str(alloc, "done\n"),
        _ => unreachable!(),
    }
}

// Bytes in lower-case hex.
fn write_hex(alloc: Global, bytes: &[u8]) -> Result<String, NoMemory>
    ensures text { IfOk result (λ text. string_bytes text ≡ hex_text bytes.now) }
{
    hex::encode(alloc, bytes)
}

// The text of an outcome in lower-case hex, or a dash where it is empty.
fn write_bytes(alloc: Global, bytes: &Items<u8>) -> Result<String, NoMemory>
    ensures text { IfOk result (λ text. string_bytes text ≡ bytes_text bytes.now) }
{
    if bytes.is_empty() {
        String::from_str(alloc, "-")
    } else {
        write_hex(alloc, bytes.as_slice())
    }
}

// A state entry's bytes in lower-case hex, or a dash where it is removed.
fn write_value(alloc: Global, value: &Option<Items<u8>>) -> Result<String, NoMemory>
    ensures text { IfOk result (λ text. string_bytes text ≡ value_text value.now) }
{
    match value {
        None => String::from_str(alloc, "-"),
        Some(bytes) => write_hex(alloc, bytes.as_slice()),
    }
}

// The name of a result, or a dash.
fn name_or_dash(name: &Option<ResultName>) -> &'static str
    ensures text { result.now ≡ result_text name.now }
{
    match name {
        None => "-",
        Some(name) => name.name(),
    }
}

// The account, namespace and key of a state entry.
fn write_entry(
    alloc: Global,
    account: &AccountId,
    namespace: &Hash256,
    key: &Hash256,
) -> Result<String, NoMemory>
    ensures text { IfOk result (λ text. string_bytes text ≡ entry_text account.now namespace.now key.now) }
{
    let account = write_hex(alloc, &account.0)?;
    let namespace = write_hex(alloc, &namespace.0)?;
    let key = write_hex(alloc, &key.0)?;
    format!(in alloc; "{account} {namespace} {key}")
}

// An outcome with the instructions that ran and the bound on them.
fn write_run(alloc: Global, outcome: &Outcome, count: u64, bound: u64) -> Result<String, NoMemory>
    ensures text { IfOk result (λ text. string_bytes text ≡ run_text outcome.now count bound) }
{
    let outcome = write_outcome(alloc, outcome)?;
    format!(in alloc; "{outcome} count {count} bound {bound}")
}

fn write_outcome(alloc: Global, outcome: &Outcome) -> Result<String, NoMemory>
    ensures text { IfOk result (λ text. string_bytes text ≡ outcome_text outcome.now) }
{
    match outcome {
        Outcome::Accepted { code, text } => {
            let text = write_bytes(alloc, text)?;
            format!(in alloc; "accepted {code} {text}")
        }
        Outcome::RolledBack { code, text } => {
            let text = write_bytes(alloc, text)?;
            format!(in alloc; "rolledback {code} {text}")
        }
        Outcome::Returned { code } => format!(in alloc; "returned {code}"),
        Outcome::Trapped(trap) => {
            let trap = trap_name(*trap);
            format!(in alloc; "trapped {trap}")
        }
        Outcome::GuardViolated { id, limit } => format!(in alloc; "guard {id} {limit}"),
    }
}

fn trap_name(trap: Trap) -> &'static str
    ensures name { result.now ≡ trap_name trap }
{
    match trap {
        Trap::Unreachable => "unreachable",
        Trap::DivideByZero => "divide_by_zero",
        Trap::DivideOverflow => "divide_overflow",
        Trap::Memory => "memory",
    }
}
