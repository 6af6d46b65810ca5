//! The last line of both commands.
ghost use Rattle.std.specs.Prelude.{IfOk};
ghost use Rattle.hk_json.specs.Turns as turns;
ghost use Rattle.hk_loop.specs.Turned.{Did};

use hk_base::NoMemory;
use hk_lines::{Rule, Status, begins};
use hk_loop::Turned;

/// What a line does that is neither an object nor a text.
pub(crate) fn closing(line: &[u8], out: &mut Vec<u8>) -> Result<Turned, NoMemory>
    ensures did { IfOk result (λ turned.
        Did (turns.closing line.now) turned tt out.old.items out.new.items) }
{
    if line == b"end".as_slice() {
        out.extend_from_slice(b"end\n")?;
        return Ok(Turned::Ends(Status::Done));
    }
    if begins(line, b"end", b"end ") {
        return Ok(Turned::Wrong(Rule::BadShape));
    }
    Ok(Turned::Wrong(Rule::BadWord))
}
