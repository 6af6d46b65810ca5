ghost use Rattle.std.specs.List.{list_any};
ghost use Rattle.std.specs.Prelude.{◌≡◌, ◌||◌};
ghost use Rattle.wa_decode.specs.Versions.{extends as extends_in, has_extensions as extensions_in};
ghost use Rattle.wa_decode.specs.Versions.{is_extension as extension_in};

use wa_ops::{Code, Element, Module, ModuleGlobal, Op, Segment};

fn is_extension(op: &Op) -> bool
    ensures extension { result ≡ extension_in op.now }
{
    match op {
        Op::Number(opcode) => matches!(*opcode, 0xC0..=0xC4),
        _ => false,
    }
}

fn extends(ops: &[Op]) -> bool
    ensures extends { result ≡ extends_in ops.now }
{
    ops.iter().any(is_extension)
}

fn globals_extend(globals: &[ModuleGlobal]) -> bool
    ensures extend { result ≡ list_any (λ global. extends_in global.init) globals.now }
{
    globals.iter().any(|global| extends(global.init.as_slice()))
}

fn elements_extend(elements: &[Element]) -> bool
    ensures extend { result ≡ list_any (λ element. extends_in element.offset) elements.now }
{
    elements
        .iter()
        .any(|element| extends(element.offset.as_slice()))
}

fn codes_extend(codes: &[Code]) -> bool
    ensures extend { result ≡ list_any (λ code. extends_in code.ops) codes.now }
{
    codes.iter().any(|code| extends(code.ops.as_slice()))
}

fn segments_extend(segments: &[Segment]) -> bool
    ensures extend { result ≡ list_any (λ segment. extends_in segment.offset) segments.now }
{
    segments
        .iter()
        .any(|segment| extends(segment.offset.as_slice()))
}

/// Whether a body or another expression of the module has a sign extension operator, which version 0 of the machine
/// lacks.
pub fn has_extensions(module: &Module) -> bool
    ensures extensions { result ≡ extensions_in «module».now }
{
    globals_extend(module.globals.as_slice())
        || elements_extend(module.elements.as_slice())
        || codes_extend(module.codes.as_slice())
        || segments_extend(module.segments.as_slice())
}
