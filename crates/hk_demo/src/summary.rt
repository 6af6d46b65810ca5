//! What is told of the replay.
ghost use Rattle.std.specs.Prelude.{◌≡◌, ◌+◌, string_bytes, IfOk};
ghost use Rattle.hk_demo.specs.Summary.{counted, none, summary_text, told, told_all};

use hk_base::NoMemory;
use hk_lines::{OutputLine, ResultName};
use std::alloc::{AllocError, Global};

/// How many Payments had each result, and the fees that were burnt at the end, in drops.
#[derive(Clone, Copy, Debug, PartialEq, Eq)]
pub struct Summary {
    pub success: u64,
    pub hook_rejected: u64,
    pub other: u64,
    pub burnt: u64,
}

/// A summary of no lines.
pub(crate) fn none() -> Summary
    ensures none { result ≡ none }
{
    Summary {
        success: 0,
        hook_rejected: 0,
        other: 0,
        burnt: 0,
    }
}

/// A Payment more with this result. No replay has so many of them that their number isn't one of 64 bits.
fn counted(told: Summary, name: ResultName) -> Result<Summary, NoMemory>
    ensures counted { IfOk result (λ after. after ≡ counted told name) }
{
    let mut after = told;
    match name {
        ResultName::Success => after.success = one_more(after.success)?,
        ResultName::HookRejected => after.hook_rejected = one_more(after.hook_rejected)?,
        _ => after.other = one_more(after.other)?,
    }
    Ok(after)
}

fn one_more(count: u64) -> Result<u64, NoMemory>
    ensures more { IfOk result (λ more. more ≡ count + 1) }
{
    match count.checked_add(1) {
        Some(more) => Ok(more),
        None => Err(AllocError),
    }
}

/// What a line adds. The Payments are the transactions behind the first two.
fn told(before: Summary, line: &OutputLine) -> Result<Summary, NoMemory>
    ensures told { IfOk result (λ after. after ≡ told before line.now) }
{
    match line {
        OutputLine::Tx {
            number,
            result,
            fee: _,
        } => {
            if *number > 2 {
                counted(before, *result)
            } else {
                Ok(before)
            }
        }
        OutputLine::FinalTotal { balances: _, burnt } => Ok(Summary {
            burnt: *burnt,
            ..before
        }),
        _ => Ok(before),
    }
}

/// What lines add.
pub(crate) fn told_all(before: Summary, lines: &[OutputLine]) -> Result<Summary, NoMemory>
    ensures told { IfOk result (λ after. after ≡ told_all before lines.now) }
{
    let mut after = before;
    for line in lines {
        after = told(after, line)?;
    }
    Ok(after)
}

/// The line that the command `demo` prints, with its line feed.
pub fn summary_line(alloc: Global, n: u32, summary: &Summary) -> Result<String, NoMemory>
    ensures text { IfOk result (λ text. string_bytes text ≡ summary_text n summary.now) }
{
    let Summary {
        success,
        hook_rejected,
        other,
        burnt,
    } = *summary;
    format!(in alloc;
        "demo {n} success {success} hook_rejected {hook_rejected} other {other} burnt {burnt}\n"
    )
}
