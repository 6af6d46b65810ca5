ghost use Rattle.std.specs.Prelude.{◌≡◌, ℕ, IfOk, Err};
ghost use Rattle.wa_validate.specs.Needs.{AllRowTypes, AllBodies, AreFew};
ghost use Rattle.wa_validate.specs.Untyped.{IsTypedAt, IsUntyped, HasDepths};

use crate::body::{Verdict, type_body};
use crate::depth::Typed;
use crate::scope::Scope;
use std::alloc::{AllocError, Global};
use wa_ops::{Items, Module};

/// Why a module isn't typed.
#[derive(Clone, Copy, Debug, PartialEq, Eq)]
pub enum TypeFault {
    /// The first function that isn't well typed, counted among those that the module defines, and the first of its
    /// instructions at which typing fails.
    Untyped { func: u32, op: u32 },
    /// Memory was wanted and there was none.
    NoMemory,
}

impl From<AllocError> for TypeFault {
    ghost use Rattle.wa_validate.specs.declared.validation.TypeFault.TheVariants.{NoMemory};

    ghost from_gives = { λ _ e. e ≡ NoMemory };

    fn from(_error: AllocError) -> TypeFault {
        TypeFault::NoMemory
    }
}

/// Checks the typing of each function that `module` defines (Core 1.0, "Validation"), and finds how deep each goes.
///
/// Indirect calls, `memory.grow` and instructions on floats are refused as untyped.
pub fn validate(alloc: Global, module: &Module) -> Result<Typed, TypeFault>
    requires imports { AllRowTypes «module».now.types «module».now.imports }
    requires bodies { AllBodies «module».now.codes }
    requires few { AreFew «module».now.codes }
    ensures typed { IfOk result (λ typed. (function : ℕ) → IsTypedAt «module».now function) }
    ensures depths { IfOk result (λ typed. HasDepths «module».now typed.depths) }
    ensures untyped { (func op : ℕ) → result ≡ Err (TypeFault.Untyped func op) → IsUntyped «module».now func op }
{
    let mut depths = Items::new(alloc);
    for (function, code) in module.codes.as_slice().iter().enumerate() {
        let scope = Scope::of(alloc, module, function)?;
        match type_body(alloc, &scope, code.ops.as_slice())? {
            Verdict::Typed(depth) => depths.push(depth)?,
            Verdict::Untyped(op) => {
                return Err(TypeFault::Untyped {
                    func: function as u32,
                    op,
                });
            }
        }
    }
    Ok(Typed { depths })
}
