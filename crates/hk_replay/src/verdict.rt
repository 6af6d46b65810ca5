//! How the verdict on a code is told.
ghost use Rattle.std.specs.Prelude.{◌≡◌, ◌++◌, codes, IfOk, string_bytes};
ghost use Rattle.hk_base.specs.Hexadecimal.{hex_text};
ghost use Rattle.hk_replay.specs.VerdictLines.{accepted_line, cbak_text, refused_line};
ghost use Rattle.hk_replay.specs.VerdictLines.{rule_name, rule_place, place_text, export_name};

use hk_base::{Hash256, NoMemory};
use hk_bound::{CheckFault, Checked, Export};
use std::alloc::Global;
use wa_ops::RuleFault;

/// Where a rule is broken.
#[derive(Clone, Copy, Debug, PartialEq, Eq)]
pub(crate) enum Place {
    /// The module as a whole.
    Whole,
    /// An item of one of its lists.
    Item(u32),
    /// An instruction of one of its functions.
    Op { func: u32, op: u32 },
}

/// The line of an accepted code: its hash and its bounds.
pub(crate) fn accepted_line(alloc: Global, checked: &Checked) -> Result<String, NoMemory>
    ensures line { IfOk result (λ line. string_bytes line ≡ accepted_line checked.now) }
{
    let hash = hash_text(alloc, &checked.hash())?;
    let bound = checked.bound_hook();
    let cbak = cbak_text(alloc, checked.bound_cbak())?;
    format!(in alloc; "ok {hash} hook {bound} cbak {cbak}\n")
}

// A hash in lower-case hex.
fn hash_text(alloc: Global, hash: &Hash256) -> Result<String, NoMemory>
    ensures text { IfOk result (λ text. string_bytes text ≡ hex_text hash.now.0) }
{
    hex::encode(alloc, &hash.0)
}

// The bound of `cbak`, or a dash.
fn cbak_text(alloc: Global, bound: Option<u64>) -> Result<String, NoMemory>
    ensures text { IfOk result (λ text. string_bytes text ≡ cbak_text bound) }
{
    match bound {
        None => String::from_str(alloc, "-"),
        Some(bound) => format!(in alloc; "{bound}"),
    }
}

/// The line of a refusal.
pub(crate) fn refused_line(alloc: Global, fault: CheckFault) -> Result<String, NoMemory>
    ensures line { IfOk result (λ line. string_bytes line ≡ refused_line fault) }
{
    match fault {
        CheckFault::TooLong => String::from_str(alloc, "refused too long\n"),
        CheckFault::Malformed => String::from_str(alloc, "refused malformed\n"),
        CheckFault::Rule(rule) => rule_line(alloc, rule_name(rule), rule_place(rule)),
        CheckFault::Untyped { func, op } => format!(in alloc; "refused untyped {func} {op}\n"),
        CheckFault::BoundTooLarge { export, bound } => {
            let name = export_name(export);
            format!(in alloc; "refused bound {name} {bound}\n")
        }
        CheckFault::NoMemory => String::from_str(alloc, ""),
    }
}

// The line of a rule that is broken at a place.
fn rule_line(alloc: Global, name: &str, place: Place) -> Result<String, NoMemory>
    ensures line { IfOk result (λ line. string_bytes line ≡ codes "refused " ++ (name.now ++ place_text place)) }
{
    let rest = place_text(alloc, place)?;
    format!(in alloc; "refused {name}{rest}")
}

// What follows the name of a rule.
fn place_text(alloc: Global, place: Place) -> Result<String, NoMemory>
    ensures text { IfOk result (λ text. string_bytes text ≡ place_text place) }
{
    match place {
        Place::Whole => String::from_str(alloc, "\n"),
        Place::Item(index) => format!(in alloc; " {index}\n"),
        Place::Op { func, op } => format!(in alloc; " {func} {op}\n"),
    }
}

fn export_name(export: Export) -> &'static str
    ensures name { result.now ≡ export_name «export» }
{
    match export {
        Export::Hook => "hook",
        Export::Cbak => "cbak",
    }
}

fn rule_name(rule: RuleFault) -> &'static str
    ensures name { result.now ≡ rule_name rule }
{
    match rule {
        RuleFault::FloatType { .. } => "float type",
        RuleFault::FloatGlobal { .. } => "float global",
        RuleFault::FloatLocals { .. } => "float locals",
        RuleFault::FloatCode { .. } => "float code",
        RuleFault::BadImport { .. } => "import",
        RuleFault::BadType { .. } => "type",
        RuleFault::BadFunction { .. } => "function",
        RuleFault::BadTable => "table",
        RuleFault::BadMemory => "memory",
        RuleFault::BadGlobal { .. } => "global",
        RuleFault::BadExport => "export",
        RuleFault::Start => "start",
        RuleFault::Elements => "elements",
        RuleFault::BadData { .. } => "segment",
        RuleFault::TooManyLocals { .. } => "locals",
        RuleFault::IndirectCall { .. } => "indirect",
        RuleFault::Grow { .. } => "grow",
        RuleFault::OwnCall { .. } => "own call",
        RuleFault::GuardNotConstant { .. } => "guard constant",
        RuleFault::LoopWithoutGuard { .. } => "loop guard",
        RuleFault::NoMemory => "no memory",
    }
}

fn rule_place(rule: RuleFault) -> Place
    ensures place { result ≡ rule_place rule }
{
    match rule {
        RuleFault::FloatType { index }
        | RuleFault::FloatGlobal { index }
        | RuleFault::BadImport { index }
        | RuleFault::BadType { index }
        | RuleFault::BadGlobal { index }
        | RuleFault::BadData { index } => Place::Item(index),
        RuleFault::FloatLocals { func }
        | RuleFault::BadFunction { func }
        | RuleFault::TooManyLocals { func } => Place::Item(func),
        RuleFault::FloatCode { func, op }
        | RuleFault::IndirectCall { func, op }
        | RuleFault::Grow { func, op }
        | RuleFault::OwnCall { func, op }
        | RuleFault::GuardNotConstant { func, op }
        | RuleFault::LoopWithoutGuard { func, op } => Place::Op { func, op },
        _ => Place::Whole,
    }
}
