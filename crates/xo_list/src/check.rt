ghost use Rattle.std.specs.Prelude.{◌≡◌, MatchResult, IfOk, IfErr, Err};
ghost use Rattle.xo_list.specs.Value.{HasFields};
ghost use Rattle.xo_list.specs.Fault.{IsFault};

use crate::fault::ObjectFault;
use crate::skip::{Place, skip_fields};

/// How many objects and arrays may be open at once.
pub const DEPTH: u8 = 10;

/// Whether the bytes are an object's fields, and if not, the fault of the leftmost field that fails. Takes no memory.
pub fn check_object(bytes: &[u8]) -> Result<(), ObjectFault>
    ensures ok { IfOk result (λ _. HasFields bytes.now) }
    ensures fault { IfErr result (λ fault. IsFault bytes.now fault) }
    ensures memory { result ≡ Err ObjectFault.NoMemory → ⊥ }
{
    match skip_fields(bytes, 0, Place::Fields, DEPTH) {
        Ok(_) => Ok(()),
        Err(fault) => Err(fault),
    }
}
