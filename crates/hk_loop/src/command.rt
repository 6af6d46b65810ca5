//! What a command does with a line.
ghost use Rattle.std.specs.Prelude.{◌≡◌, List, ℕ, IfOk};
ghost use Rattle.hk_lines.specs.Given.{Turn};
ghost use Rattle.hk_loop.specs.Turned.{Did};

use hk_base::NoMemory;
use hk_lines::{Status, Turned};
use std::alloc::Global;

/// A command that goes through its input line by line.
pub trait Command {
    /// What a line does in a state.
    ghost turn: { Self → List ℕ → Turn Self };

    /// What the line with which the command is done leaves of the state before it. By default nothing is said.
    ghost keeps: { Self → Self → Type 0 } = { λ before after. Unit {0} };

    /// Takes a line that isn't skipped, and appends what it prints. After want of memory nothing is known of the
    /// command and of what was appended.
    fn line(&mut self, alloc: Global, line: &[u8], out: &mut Vec<u8>) -> Result<Turned, NoMemory>
        ensures did { IfOk result (λ turned.
            Did (turn self.old line.now) turned self.new out.old.items out.new.items) }
        ensures kept { IfOk result (λ turned. turned ≡ Turned.Ends Status.Done → keeps self.old self.new) };
}
