//! How the program ends.
ghost use Rattle.std.specs.Prelude.{◌≡◌};
ghost use Rattle.hk_replay.specs.Answers.{exit_status};

use hk_lines::Status;

/// The exit status of the process.
pub fn exit_status(status: Status) -> u8
    ensures number { result ≡ exit_status status }
{
    match status {
        Status::Done => 0,
        Status::Usage => 2,
        Status::BadInput => 3,
        Status::ReadFault => 4,
        Status::WriteFault => 5,
        Status::NoMemory => 6,
        Status::HookRefused => 7,
        Status::TooLong => 8,
    }
}
