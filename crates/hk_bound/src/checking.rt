ghost use Rattle.hk_bound.specs.Bounds.{export_bound};
ghost use Rattle.hk_bound.specs.Checks.{AllTyped, BreaksRules, FailsTyping, Holds, IsCbakFault, IsHookFault, IsRefused};
ghost use Rattle.hk_bound.specs.Checks.{IsUnspelled, IsWithin, fault_of, hash_of, most};
ghost use Rattle.hk_rules.specs.Guards.{AreGuards};
ghost use Rattle.std.specs.Prelude.{◌≡◌, ◌==◌, ◌&&◌, ◌<◌, ◌≤◌, ℕ, IfErr, IfOk, OnErr, OnOk, Some};
ghost use Rattle.wa_decode.specs.Modules.{Spells};
ghost use Rattle.wa_decode.specs.Versions.{SpellsIn, has_extensions};
ghost use Rattle.wa_ops.specs.HookRules.{IsRuled, is_cbak, is_hook};
ghost use Rattle.wa_ops.specs.Soundness.{IsSound};
ghost use Rattle.wa_validate.specs.Untyped.{HasDepths};

use crate::bounding::bound_at;
use crate::checked::Checked;
use crate::entries::{cbak_entry, hook_entry};
use crate::fault::{CheckFault, Export};
use hk_base::{HalfHash, Hash256, sha512half};
use hk_rules::{Guards, RuleFault, rules};
use std::alloc::Global;
use wa_decode::{DecodeFault, decode, has_extensions};
use wa_ops::Module;
use wa_validate::{TypeFault, Typed, validate};

fn spelled(alloc: Global, code: &[u8]) -> Result<Module, CheckFault>
    ensures spelled { IfOk result (λ m. Spells m code.now) }
    ensures sound { IfOk result IsSound }
    ensures fault { (version : ℕ) → IfErr result (IsUnspelled version code.now) }
{
    match decode(alloc, code) {
        Ok(module) => Ok(module),
        Err(DecodeFault::Malformed) => Err(CheckFault::Malformed),
        Err(DecodeFault::NoMemory) => Err(CheckFault::NoMemory),
    }
}

/// Whether the module has operators that the version lacks.
fn is_too_new(module: &Module, version: u16) -> bool
    ensures new { result ≡ ((version == 0) && has_extensions «module».now) }
{
    version == 0 && has_extensions(module)
}

fn decoded(alloc: Global, code: &[u8], version: u16) -> Result<Module, CheckFault>
    ensures spelled { IfOk result (λ m. SpellsIn version m code.now) }
    ensures sound { IfOk result IsSound }
    ensures fault { IfErr result (IsUnspelled version code.now) }
{
    let module = spelled(alloc, code)?;
    if is_too_new(&module, version) {
        return Err(CheckFault::Malformed);
    }
    Ok(module)
}

fn fault_of(found: RuleFault) -> CheckFault
    ensures fault { result ≡ fault_of found }
{
    match found {
        RuleFault::NoMemory => CheckFault::NoMemory,
        _ => CheckFault::Rule(found),
    }
}

fn ruled(alloc: Global, module: &Module) -> Result<Guards, CheckFault>
    requires sound { IsSound «module».now }
    ensures ruled { OnOk result (IsRuled «module».now) }
    ensures guards { IfOk result (AreGuards «module».now) }
    ensures fault { IfErr result (BreaksRules «module».now) }
{
    match rules(alloc, module) {
        Ok(guards) => Ok(guards),
        Err(found) => Err(fault_of(found)),
    }
}

fn typed(alloc: Global, module: &Module) -> Result<Typed, CheckFault>
    requires sound { IsSound «module».now }
    requires ruled { IsRuled «module».now }
    ensures typed { OnOk result (AllTyped «module».now) }
    ensures depths { IfOk result (λ typed. HasDepths «module».now typed.depths) }
    ensures fault { IfErr result (FailsTyping «module».now) }
{
    match validate(alloc, module) {
        Ok(typed) => Ok(typed),
        Err(TypeFault::Untyped { func, op }) => Err(CheckFault::Untyped { func, op }),
        Err(TypeFault::NoMemory) => Err(CheckFault::NoMemory),
    }
}

/// The greatest bound of an export.
fn most(version: u16) -> u64
    ensures most { result ≡ most version }
{
    if version == 0 { 65_535 } else { 262_143 }
}

/// The bound, where it is small enough.
fn within(which: Export, bound: u64, version: u16) -> Result<u64, CheckFault>
    ensures bound { IfOk result (λ n. n ≡ bound) }
    ensures small { OnOk result (bound ≤ most version) }
    ensures fault { IfErr result (λ found. found ≡ CheckFault.BoundTooLarge which bound) }
    ensures large { OnErr result (most version < bound) }
{
    if bound > most(version) {
        return Err(CheckFault::BoundTooLarge {
            export: which,
            bound,
        });
    }
    Ok(bound)
}

fn hook_bound(module: &Module, guards: &Guards, version: u16) -> Result<u64, CheckFault>
    requires sound { IsSound «module».now }
    requires ruled { IsRuled «module».now }
    requires guards { AreGuards «module».now guards.now }
    requires known { version ≤ 1 }
    ensures bound { IfOk result (λ n. export_bound version is_hook «module».now ≡ Some n) }
    ensures small { OnOk result (IsWithin version is_hook «module».now) }
    ensures fault { IfErr result (IsHookFault version «module».now) }
{
    let bound = bound_at(module, guards, guards.hook, version);
    within(Export::Hook, bound, version)
}

fn cbak_bound(module: &Module, guards: &Guards, version: u16) -> Result<Option<u64>, CheckFault>
    requires sound { IsSound «module».now }
    requires ruled { IsRuled «module».now }
    requires guards { AreGuards «module».now guards.now }
    requires known { version ≤ 1 }
    ensures bound { IfOk result (λ n. export_bound version is_cbak «module».now ≡ n) }
    ensures small { OnOk result (IsWithin version is_cbak «module».now) }
    ensures fault { IfErr result (IsCbakFault version «module».now) }
{
    match guards.cbak {
        Some(func) => {
            let bound = bound_at(module, guards, func, version);
            let bound = within(Export::Cbak, bound, version)?;
            Ok(Some(bound))
        }
        None => Ok(None),
    }
}

/// What the code is known by.
fn hash_of(code: &[u8], version: u16) -> Hash256
    ensures hash { result ≡ hash_of version code.now }
{
    if version == 0 {
        return sha512half(code);
    }
    let mut hash = HalfHash::new();
    hash.add(&[0x00, 0x01]);
    hash.add(code);
    hash.finish()
}

/// Checks a hook's code, in version 0.
///
/// # Errors
///
/// As for `check_at`.
pub fn check(alloc: Global, code: &[u8]) -> Result<Checked, CheckFault>
    ensures accepted { IfOk result (Holds 0 code.now) }
    ensures refused { IfErr result (IsRefused 0 code.now) }
{
    check_at(alloc, code, 0)
}

/// Checks a hook's code, in this version of the machine.
///
/// # Errors
///
/// The first that holds: too long, malformed, a rule broken, untyped, the bound of `hook` too large, that of `cbak`;
/// `NoMemory` where memory ran out before.
pub fn check_at(alloc: Global, code: &[u8], version: u16) -> Result<Checked, CheckFault>
    requires known { version ≤ 1 }
    ensures accepted { IfOk result (Holds version code.now) }
    ensures refused { IfErr result (IsRefused version code.now) }
{
    if code.len() > 65_535 {
        return Err(CheckFault::TooLong);
    }
    let module = decoded(alloc, code, version)?;
    let guards = ruled(alloc, &module)?;
    let typed = typed(alloc, &module)?;
    let bound_hook = hook_bound(&module, &guards, version)?;
    let bound_cbak = cbak_bound(&module, &guards, version)?;
    let hook_entry = hook_entry(alloc, &module, &guards, &typed)?;
    let cbak_entry = cbak_entry(alloc, &module, &guards, &typed)?;
    Ok(Checked {
        version,
        module,
        guards,
        typed,
        hash: hash_of(code, version),
        bound_hook,
        bound_cbak,
        hook_entry,
        cbak_entry,
    })
}
