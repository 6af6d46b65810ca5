//! The commands of the program, by its words.
ghost use Rattle.std.specs.Prelude.{◌≡◌, ◌≤◌, map, string_bytes, IfOk};
ghost use Rattle.hk_replay.specs.Answers.{command_of, number, word_command, IsInRange};

use hk_base::NoMemory;
use hk_lines::read_number;
use std::alloc::Global;

/// The most Payments of a demo.
const MOST_PAYMENTS: u64 = 100_000;

/// A version of the machine.
#[derive(Clone, Copy, Debug, PartialEq, Eq)]
pub(crate) enum Version {
    Zero,
    One,
}

impl Version {
    /// The number that it has in transactions: 0 or 1.
    pub(crate) fn number(self) -> u16
        ensures number { result ≡ number self }
        ensures known { result ≤ 1 }
    {
        match self {
            Version::Zero => 0,
            Version::One => 1,
        }
    }
}

/// What a command is to do with a hook's code.
#[derive(Clone, Copy, Debug, PartialEq, Eq)]
pub(crate) enum Task {
    Check,
    Run,
}

/// What is asked of a hook's code, in which version of the machine.
#[derive(Clone, Copy, Debug, PartialEq, Eq)]
pub(crate) struct Question {
    pub task: Task,
    pub version: Version,
}

/// What the words name.
#[derive(Clone, Copy, Debug, PartialEq, Eq)]
pub(crate) enum Command {
    Hook(Question),
    Replay,
    /// A demo of so many Payments.
    Demo(u32),
    Asm,
    Json,
    Unjson,
    Other,
}

/// The command that the words name.
pub(crate) fn command_of(alloc: Global, words: &[String]) -> Result<Command, NoMemory>
    ensures names { IfOk result (λ command. command ≡ command_of (map string_bytes words.now)) }
    ensures fits { IfOk result (λ command. IsInRange command) }
{
    if let [word] = words {
        return Ok(word_command(word.as_str()));
    }
    let [word, number] = words else {
        return Ok(Command::Other);
    };
    if word.as_str() != "demo" {
        return Ok(Command::Other);
    }
    match read_number(alloc, 1, MOST_PAYMENTS, number.as_bytes())? {
        Some(payments) => Ok(Command::Demo(payments as u32)),
        None => Ok(Command::Other),
    }
}

/// The command that one word names.
fn word_command(word: &str) -> Command
    ensures names { result ≡ word_command word.now }
    ensures fits { IsInRange result }
{
    if word == "check" {
        return hook(Task::Check, Version::Zero);
    }
    if word == "run" {
        return hook(Task::Run, Version::Zero);
    }
    if word == "check1" {
        return hook(Task::Check, Version::One);
    }
    if word == "run1" {
        return hook(Task::Run, Version::One);
    }
    if word == "replay" {
        return Command::Replay;
    }
    if word == "asm" {
        return Command::Asm;
    }
    if word == "json" {
        return Command::Json;
    }
    if word == "unjson" {
        return Command::Unjson;
    }
    Command::Other
}

fn hook(task: Task, version: Version) -> Command
    ensures hook { result ≡ Command.Hook (record { task = task; version = version }) }
{
    Command::Hook(Question { task, version })
}
