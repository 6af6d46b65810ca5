ghost use Rattle.std.specs.Prelude.{◌≡◌, ◌&&◌, ◌<◌, ◌^◌, ◌∷◌, [], nat_le, IfOk, Some, None, if◌then◌else◌, slice_get};
ghost use Rattle.wa_ops.specs.Accesses.{load_type, load_width, store_type, store_width, number_takes, number_gives};
ghost use Rattle.wa_ops.specs.Callees.{takes, gives};
ghost use Rattle.wa_ops.specs.Opcodes.{is_load, is_store, is_number};
ghost use Rattle.wa_ops.specs.Typing.{effect, push, selected, and_then, push_result, pop_result, pop, left_with};
ghost use Rattle.wa_ops.specs.Typing.{all_carry, changed, stored, pop_all};

use crate::accesses::{
    is_load, is_number, is_store, load_type, load_width, number_gives, number_takes, store_type,
    store_width,
};
use crate::labels::Labels;
use crate::operands::Operands;
use crate::scope::Scope;
use wa_ops::{NoMemory, Op, ValueType};

/// Whether an instruction that opens and closes no region is well typed; then the operands are those behind it.
pub(crate) fn type_plain(
    scope: &Scope<'_>,
    labels: &Labels,
    op: &Op,
    operands: &mut Operands,
) -> Result<bool, NoMemory>
    ensures effect { IfOk result
        (λ typed. effect scope.now labels.now op.now operands.old ≡ (if typed then Some operands.new else None)) }
{
    match op {
        Op::Unreachable => {
            operands.loosen();
            Ok(true)
        }
        Op::Nop => Ok(true),
        Op::Br(label) => Ok(branch(labels, *label, operands)),
        Op::BrIf(label) => branch_if(labels, *label, operands),
        Op::BrTable {
            labels: listed,
            last,
        } => Ok(branch_by(labels, listed.as_slice(), *last, operands)),
        Op::Return => Ok(operands.leave_with(scope.result())),
        Op::Call(function) => call(scope, *function, operands),
        Op::Drop => Ok(operands.drop_one()),
        Op::Select => select(operands),
        Op::LocalGet(local) => get_local(scope, *local, operands),
        Op::LocalSet(local) => Ok(set_local(scope, *local, operands)),
        Op::LocalTee(local) => tee_local(scope, *local, operands),
        Op::GlobalGet(global) => get_global(scope, *global, operands),
        Op::GlobalSet(global) => Ok(set_global(scope, *global, operands)),
        Op::Load { opcode, align, .. } => load(scope, *opcode, *align, operands),
        Op::Store { opcode, align, .. } => Ok(store(scope, *opcode, *align, operands)),
        Op::MemorySize => memory_size(scope, operands),
        Op::I32Const(_) => give(ValueType::I32, operands),
        Op::I64Const(_) => give(ValueType::I64, operands),
        Op::Number(opcode) => number(*opcode, operands),
        _ => Ok(false),
    }
}

fn give(kind: ValueType, operands: &mut Operands) -> Result<bool, NoMemory>
    ensures given { IfOk result (λ typed. Some (push kind operands.old) ≡ (if typed then Some operands.new else None)) }
{
    operands.push(kind)?;
    Ok(true)
}

fn branch(labels: &Labels, label: u32, operands: &mut Operands) -> bool
    ensures left { and_then (slice_get labels.now label) (λ carried. left_with carried operands.old)
        ≡ (if result then Some operands.new else None) }
{
    match labels.get(label) {
        Some(carried) => operands.leave_with(carried),
        None => false,
    }
}

fn branch_if(labels: &Labels, label: u32, operands: &mut Operands) -> Result<bool, NoMemory>
    ensures typed { IfOk result (λ typed.
        and_then (pop ValueType.I32 operands.old) (λ below.
        and_then (slice_get labels.now label)
        (λ carried. and_then (pop_result carried below) (λ left. Some (push_result carried left))))
        ≡ (if typed then Some operands.new else None)) }
{
    if !operands.take(ValueType::I32) {
        return Ok(false);
    }
    let Some(carried) = labels.get(label) else {
        return Ok(false);
    };
    if !operands.take_result(carried) {
        return Ok(false);
    }
    operands.push_result(carried)?;
    Ok(true)
}

fn branch_by(labels: &Labels, listed: &[u32], last: u32, operands: &mut Operands) -> bool
    ensures left { and_then (pop ValueType.I32 operands.old) (λ below.
        and_then (slice_get labels.now last)
        (λ carried. if all_carry labels.now carried listed.now then left_with carried below else None))
        ≡ (if result then Some operands.new else None) }
{
    if !operands.take(ValueType::I32) {
        return false;
    }
    match labels.get(last) {
        Some(carried) => labels.all_carry(carried, listed) && operands.leave_with(carried),
        None => false,
    }
}

fn call(scope: &Scope<'_>, function: u32, operands: &mut Operands) -> Result<bool, NoMemory>
    ensures changed { IfOk result (λ typed.
        and_then (slice_get scope.now.calls function) (λ callee. changed (takes callee) (gives callee) operands.old)
        ≡ (if typed then Some operands.new else None)) }
{
    let Some(callee) = scope.callee(function) else {
        return Ok(false);
    };
    match callee.results.as_slice().first() {
        Some(given) => operands.change(callee.parameters.as_slice(), *given),
        None => Ok(false),
    }
}

fn select(operands: &mut Operands) -> Result<bool, NoMemory>
    ensures selected { IfOk result (λ typed.
        and_then (pop ValueType.I32 operands.old) (λ below. selected below.slots below.loose)
        ≡ (if typed then Some operands.new else None)) }
{
    if !operands.take(ValueType::I32) {
        return Ok(false);
    }
    operands.select()
}

fn get_local(scope: &Scope<'_>, local: u32, operands: &mut Operands) -> Result<bool, NoMemory>
    ensures typed { IfOk result (λ typed.
        and_then (slice_get scope.now.locals local) (λ kind. Some (push kind operands.old))
        ≡ (if typed then Some operands.new else None)) }
{
    match scope.local(local) {
        Some(kind) => give(kind, operands),
        None => Ok(false),
    }
}

fn set_local(scope: &Scope<'_>, local: u32, operands: &mut Operands) -> bool
    ensures typed { and_then (slice_get scope.now.locals local) (λ kind. pop kind operands.old)
        ≡ (if result then Some operands.new else None) }
{
    match scope.local(local) {
        Some(kind) => operands.take(kind),
        None => false,
    }
}

fn tee_local(scope: &Scope<'_>, local: u32, operands: &mut Operands) -> Result<bool, NoMemory>
    ensures typed { IfOk result (λ typed.
        and_then (slice_get scope.now.locals local) (λ kind. changed (kind ∷ []) kind operands.old)
        ≡ (if typed then Some operands.new else None)) }
{
    match scope.local(local) {
        Some(kind) => operands.change(&[kind], kind),
        None => Ok(false),
    }
}

fn get_global(scope: &Scope<'_>, global: u32, operands: &mut Operands) -> Result<bool, NoMemory>
    ensures typed { IfOk result (λ typed.
        and_then (slice_get scope.now.globals global) (λ found. Some (push found.kind operands.old))
        ≡ (if typed then Some operands.new else None)) }
{
    match scope.global(global) {
        Some(found) => give(found.kind, operands),
        None => Ok(false),
    }
}

fn set_global(scope: &Scope<'_>, global: u32, operands: &mut Operands) -> bool
    ensures typed { and_then (slice_get scope.now.globals global) (λ found. stored scope.now found operands.old)
        ≡ (if result then Some operands.new else None) }
{
    match scope.global(global) {
        Some(found) => found.mutable && operands.take(found.kind),
        None => false,
    }
}

/// Whether 2 to the power `align` is `width` at most, which is 1, 2, 4 or 8.
fn is_aligned(align: u32, width: u32) -> bool
    requires width { width < 16 }
    ensures aligned { result ≡ nat_le (2 ^ align) width }
{
    align < 4 && 1u32 << align <= width
}

fn load(
    scope: &Scope<'_>,
    opcode: u8,
    align: u32,
    operands: &mut Operands,
) -> Result<bool, NoMemory>
    ensures typed { IfOk result (λ typed.
        (if scope.now.has_memory && (is_load opcode && nat_le (2 ^ align) (load_width opcode))
        then changed (ValueType.I32 ∷ []) (load_type opcode) operands.old else None)
        ≡ (if typed then Some operands.new else None)) }
{
    if !(scope.has_memory() && is_load(opcode) && is_aligned(align, load_width(opcode))) {
        return Ok(false);
    }
    operands.change(&[ValueType::I32], load_type(opcode))
}

fn store(scope: &Scope<'_>, opcode: u8, align: u32, operands: &mut Operands) -> bool
    ensures typed { (if scope.now.has_memory && (is_store opcode && nat_le (2 ^ align) (store_width opcode))
        then pop_all (store_type opcode ∷ ValueType.I32 ∷ []) operands.old else None)
        ≡ (if result then Some operands.new else None) }
{
    if !(scope.has_memory() && is_store(opcode) && is_aligned(align, store_width(opcode))) {
        return false;
    }
    operands.take_all(&[ValueType::I32, store_type(opcode)])
}

fn memory_size(scope: &Scope<'_>, operands: &mut Operands) -> Result<bool, NoMemory>
    ensures typed { IfOk result (λ typed.
        (if scope.now.has_memory then Some (push ValueType.I32 operands.old) else None)
        ≡ (if typed then Some operands.new else None)) }
{
    if !scope.has_memory() {
        return Ok(false);
    }
    give(ValueType::I32, operands)
}

fn number(opcode: u8, operands: &mut Operands) -> Result<bool, NoMemory>
    ensures typed { IfOk result (λ typed.
        (if is_number opcode then changed (number_takes opcode) (number_gives opcode) operands.old else None)
        ≡ (if typed then Some operands.new else None)) }
{
    if !is_number(opcode) {
        return Ok(false);
    }
    let (kind, two) = number_takes(opcode);
    if two {
        operands.change(&[kind, kind], number_gives(opcode))
    } else {
        operands.change(&[kind], number_gives(opcode))
    }
}
