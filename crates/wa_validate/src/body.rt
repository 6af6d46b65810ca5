ghost use Rattle.std.specs.Prelude.{◌≡◌, ◌<◌, ◌^◌, length, IfOk};
ghost use Rattle.wa_ops.specs.Sequences.{Sequence, Reads};
ghost use Rattle.wa_validate.specs.Depths.{body_depth};
ghost use Rattle.wa_validate.specs.Untyped.{body_typing};
ghost use Rattle.wa_validate.specs.Verdicts.{verdict_of};

use crate::depth::Depth;
use crate::open_regions::OpenRegions;
use crate::scope::Scope;
use std::alloc::Global;
use wa_ops::{NoMemory, Op};

/// What a body comes to: how deep it goes, or the first place where it isn't well typed.
#[derive(Clone, Copy)]
pub(crate) enum Verdict {
    Typed(Depth),
    Untyped(u32),
}

/// The verdict on a body's flat code.
pub(crate) fn type_body(alloc: Global, scope: &Scope<'_>, ops: &[Op]) -> Result<Verdict, NoMemory>
    requires short { length ops.now < 2 ^ 32 }
    ensures verdict { IfOk result (λ verdict.
        (body : Sequence) → Reads ops.now body →
        verdict ≡ verdict_of (body_typing scope.now body) (body_depth scope.now body)) }
{
    let mut regions = OpenRegions::new(alloc, scope.result())?;
    let mut most = Depth::surface();
    for (place, op) in ops.iter().enumerate() {
        most = most.deeper(regions.depth());
        if !regions.step(alloc, scope, op)? {
            return Ok(Verdict::Untyped(place as u32));
        }
    }
    Ok(Verdict::Typed(most))
}
