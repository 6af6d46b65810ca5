//! What a code is answered.
ghost use Rattle.std.specs.Prelude.{◌≡◌, ℕ, IfOk};
ghost use Rattle.hk_bound.specs.Checks.{Holds};
ghost use Rattle.hk_lines.specs.OutputForms.{line_text};
ghost use Rattle.hk_lines.specs.declared.output_line.OutputLine.TheVariants as printed;
ghost use Rattle.hk_replay.specs.Answers.{IsReply, IsRunOf, Accepts};

use crate::command::{Question, Task};
use crate::verdict::{accepted_line, refused_line};
use hk_alone::run_alone;
use hk_base::NoMemory;
use hk_bound::{CheckFault, Checked, check_at};
use hk_lines::{OutputLine, Status, print_line};
use std::alloc::{AllocError, Global};
use wa_exec::Ended;

/// A text and a status.
#[derive(Debug, Drop)]
pub(crate) struct Reply {
    pub(crate) text: Vec<u8>,
    pub(crate) status: Status,
}

/// What a code is answered: it is checked in the question's version of the machine, and where it is to be run and is
/// accepted, its `hook` is run once with argument 0.
pub(crate) fn reply_to(alloc: Global, question: Question, code: &[u8]) -> Result<Reply, NoMemory>
    ensures reply { IfOk result (λ reply. IsReply question code.now reply.text.items reply.status) }
{
    match check_at(alloc, code, question.version.number()) {
        Ok(checked) => {
            let text = accepted(alloc, question.task, code, &checked)?;
            Ok(Reply {
                text,
                status: Status::Done,
            })
        }
        Err(CheckFault::NoMemory) => Err(AllocError),
        Err(fault) => {
            let line = refused_line(alloc, fault)?;
            let text = Vec::from_slice(alloc, line.as_bytes())?;
            Ok(Reply {
                text,
                status: Status::HookRefused,
            })
        }
    }
}

// What an accepted code is answered.
fn accepted(alloc: Global, task: Task, code: &[u8], checked: &Checked) -> Result<Vec<u8>, NoMemory>
    ensures accepts { IfOk result (λ text. (version : ℕ) → Holds version code.now checked.now →
        Accepts task version code.now text.items) }
{
    match task {
        Task::Check => {
            let line = accepted_line(alloc, checked)?;
            Vec::from_slice(alloc, line.as_bytes())
        }
        Task::Run => run_to_end(alloc, code, checked),
    }
}

// Runs `hook` with argument 0, and answers the line of its ending.
fn run_to_end(alloc: Global, code: &[u8], checked: &Checked) -> Result<Vec<u8>, NoMemory>
    ensures line { IfOk result (λ text. (version : ℕ) → Holds version code.now checked.now →
        IsRunOf version code.now text.items) }
{
    let ended = run_alone(alloc, checked, code)?;
    let bound = checked.bound_hook();
    run_line(alloc, ended, bound)
}

// The line of a run's ending.
fn run_line(alloc: Global, ended: Ended, bound: u64) -> Result<Vec<u8>, NoMemory>
    ensures line { IfOk result (λ text. text.items ≡ line_text (printed.Run ended.outcome ended.count bound)) }
{
    let Ended { outcome, count } = ended;
    let mut text = Vec::new(alloc);
    print_line(
        &mut text,
        &OutputLine::Run {
            outcome,
            count,
            bound,
        },
    )?;
    Ok(text)
}
