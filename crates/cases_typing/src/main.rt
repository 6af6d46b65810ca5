//! Cases of typing: `BYTES = OPERANDS/LABELS`, how deep the only function of a module without imports goes, or where it
//! isn't well typed.
#![tactic(auto)]

ghost use Rattle.std.specs.Prelude.{◌≡◌, []};
ghost use Rattle.wa_ops.specs.Soundness.{IsSound};

use cases::{CaseFault, Family, Words};
use std::alloc::Global;
use std::io;
use wa_decode::decode;
use wa_ops::Module;
use wa_validate::{TypeFault, Typed, validate};

struct Bodies;

impl Family for Bodies {
    fn answer(&self, words: &mut Words<'_>) -> Result<String, CaseFault> {
        let bytes = words.bytes()?;
        match decode(words.alloc, &bytes) {
            Ok(module) if module.imports.len() == 0 => told(words.alloc, &module),
            _ => Err(CaseFault::BadCase),
        }
    }
}

fn told(alloc: Global, module: &Module) -> Result<String, CaseFault>
    requires sound { IsSound «module».now }
    requires alone { «module».now.imports ≡ [] }
{
    match depths(alloc, module) {
        Ok(typed) => match typed.depths.as_slice() {
            [depth] => Ok(format!(in alloc; "{}/{}", depth.operands, depth.labels)?),
            _ => Err(CaseFault::BadCase),
        },
        Err(fault) => Ok(format!(in alloc; "{fault:?}")?),
    }
}

fn depths(alloc: Global, module: &Module) -> Result<Typed, TypeFault>
    requires sound { IsSound «module».now }
    requires alone { «module».now.imports ≡ [] }
{
    validate(alloc, module)
}

fn main(rt: HostRuntime) -> io::Result<()> {
    cases::run(&rt, &Bodies)
}
