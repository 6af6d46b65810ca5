//! The items by which a transaction installs, changes and removes hooks.
ghost use Rattle.std.specs.Prelude.{◌≡◌, ◌≤◌, ◌<◌, ◌||◌, ◌==◌, [], List, Bool, Err, IfOk, IfSome, IfNone, IsTrue, All};
ghost use Rattle.std.specs.Prelude.{Some, None};
ghost use Rattle.xo_object.specs.declared.terms.Terms.{Terms};
ghost use Rattle.xo_object.specs.declared.transaction.HookItem.{HookItem};
ghost use Rattle.xo_list.specs.Item.{lookup};
ghost use Rattle.xo_object.specs.Names.{create_code, hook, hook_hash, flags};
ghost use Rattle.xo_list.specs.Span.{items, items_of, InRange};
ghost use Rattle.xo_object.specs.Transaction.{IsElement, AreHooks, HookIs, IsDelete, IsDeleteNamespace, IsCreate};
ghost use Rattle.xo_object.specs.Transaction.{IsInstall, IsUpdate, TermsAre, Replaces, number32, or_empty};
ghost use Rattle.xo_list.specs.Value.{IsArray};

use crate::lists::{copied, given_grants, given_parameters};
use crate::names::{
    CREATE_CODE, FLAGS, HOOK_API_VERSION, HOOK_GRANTS, HOOK_HASH, HOOK_NAMESPACE, HOOK_ON,
    HOOK_PARAMETERS,
};
use crate::reading::{
    TransactionFault, has_only, hash_at, nested_array, nested_object, number16_at, number32_at,
};
use crate::terms::Terms;
use crate::transaction::{Grant, HookItem, Parameter};
use hk_base::Items;
use std::alloc::Global;
use xo_fields::FieldId;
use xo_list::{Object, Span, one_reading};

/// The most items of a transaction.
const MOST: usize = 10;

/// The last version of hooks.
const LAST_VERSION: u16 = 1;

/// The items of an array's bytes.
pub fn read_hooks(alloc: Global, bytes: &[u8]) -> Result<Items<HookItem>, TransactionFault>
    ensures ok { IfOk result (λ hooks. AreHooks bytes.now hooks) }
    ensures malformed { result ≡ Err TransactionFault.Malformed → (hooks : List HookItem) → AreHooks bytes.now hooks →
        ⊥ }
{
    match nested_array(alloc, bytes) {
        Err(fault) => Err(fault),
        Ok(elements) => hooks_of(alloc, bytes, elements.as_slice()),
    }
}

/// The items of an array's elements.
fn hooks_of(
    alloc: Global,
    bytes: &[u8],
    elements: &[(FieldId, Span)],
) -> Result<Items<HookItem>, TransactionFault>
    requires array { IsArray (items_of bytes.now elements.now) bytes.now }
    requires ranges { All (InRange bytes.now) elements.now }
    ensures ok { IfOk result (λ hooks. AreHooks bytes.now hooks) }
    ensures malformed { result ≡ Err TransactionFault.Malformed → (hooks : List HookItem) → AreHooks bytes.now hooks →
        ⊥ }
{
    one_reading();
    if elements.len() > MOST {
        return Err(TransactionFault::Malformed);
    }
    if elements.len() < 1 {
        return Err(TransactionFault::Malformed);
    }
    let mut hooks = Items::new(alloc);
    for element in elements {
        let (field, span) = *element;
        match read_hook(alloc, field, &bytes[span.from..span.to]) {
            Err(fault) => return Err(fault),
            Ok(hook) => {
                if let Err(_) = hooks.push(hook) {
                    return Err(TransactionFault::NoMemory);
                }
            }
        }
    }
    Ok(hooks)
}

/// The item of an element.
fn read_hook(alloc: Global, field: FieldId, bytes: &[u8]) -> Result<HookItem, TransactionFault>
    ensures ok { IfOk result (λ item. IsElement hook HookIs (record { field = field; value = bytes.now }) item) }
    ensures malformed { result ≡ Err TransactionFault.Malformed → (item : HookItem) →
        IsElement hook HookIs (record { field = field; value = bytes.now }) item → ⊥ }
{
    one_reading();
    if field.kind != 14 {
        return Err(TransactionFault::Malformed);
    }
    if field.code != 14 {
        return Err(TransactionFault::Malformed);
    }
    let object = nested_object(alloc, bytes)?;
    hook_of(alloc, &object)
}

/// The item of an object's fields.
fn hook_of(alloc: Global, object: &Object) -> Result<HookItem, TransactionFault>
    ensures ok { IfOk result (λ item. HookIs (items object.now) item) }
    ensures malformed { result ≡ Err TransactionFault.Malformed → (item : HookItem) → HookIs (items object.now) item →
        ⊥ }
{
    if object.items().len() == 0 {
        return Ok(HookItem::Noop);
    }
    match object.field(CREATE_CODE) {
        Some(code) => {
            if code.len() == 0 {
                delete_of(object)
            } else {
                create_of(alloc, object, code)
            }
        }
        None => hook_without_code(alloc, object),
    }
}

fn hook_without_code(alloc: Global, object: &Object) -> Result<HookItem, TransactionFault>
    requires some { items object.now ≡ [] → ⊥ }
    requires no_code { lookup create_code (items object.now) ≡ None }
    ensures ok { IfOk result (λ item. HookIs (items object.now) item) }
    ensures malformed { result ≡ Err TransactionFault.Malformed → (item : HookItem) → HookIs (items object.now) item →
        ⊥ }
{
    if let Some(_) = object.field(HOOK_HASH) {
        return install_of(alloc, object);
    }
    match number32_at(object, FLAGS) {
        None => update_of(alloc, object),
        Some(bits) => {
            if bits / 2 % 2 == 1 {
                delete_namespace_of(object)
            } else {
                update_of(alloc, object)
            }
        }
    }
}

fn delete_of(object: &Object) -> Result<HookItem, TransactionFault>
    ensures ok { IfOk result (λ item. IsDelete (items object.now) item) }
    ensures malformed { result ≡ Err TransactionFault.Malformed → (item : HookItem) → IsDelete (items object.now) item →
        ⊥ }
{
    if !has_only(object, &[FLAGS, CREATE_CODE]) {
        return Err(TransactionFault::Malformed);
    }
    match number32_at(object, FLAGS) {
        None => Err(TransactionFault::Malformed),
        Some(bits) => {
            if is_either(bits, 1, 5) {
                Ok(HookItem::Delete)
            } else {
                Err(TransactionFault::Malformed)
            }
        }
    }
}

fn delete_namespace_of(object: &Object) -> Result<HookItem, TransactionFault>
    ensures ok { IfOk result (λ item. IsDeleteNamespace (items object.now) item) }
    ensures malformed { result ≡ Err TransactionFault.Malformed → (item : HookItem) →
        IsDeleteNamespace (items object.now) item → ⊥ }
{
    if !has_only(object, &[FLAGS, HOOK_NAMESPACE]) {
        return Err(TransactionFault::Malformed);
    }
    let bits = match number32_at(object, FLAGS) {
        None => return Err(TransactionFault::Malformed),
        Some(bits) => bits,
    };
    if !is_either(bits, 2, 6) {
        return Err(TransactionFault::Malformed);
    }
    match hash_at(object, HOOK_NAMESPACE) {
        None => Err(TransactionFault::Malformed),
        Some(namespace) => Ok(HookItem::DeleteNamespace(namespace)),
    }
}

fn is_either(bits: u32, one: u32, other: u32) -> bool
    ensures either { result ≡ (bits == one || bits == other) }
{
    bits == one || bits == other
}

/// Whether bit 1 of the flags is there, or `None` where they are others than 0, 1, 4 and 5.
fn replaces(object: &Object) -> Option<bool>
    ensures right { IfSome result (λ replace. Replaces (number32 flags (items object.now)) replace) }
    ensures wrong { IfNone result ((replace : Bool) → Replaces (number32 flags (items object.now)) replace → ⊥) }
{
    match number32_at(object, FLAGS) {
        None => Some(false),
        Some(bits) => replaces_by(bits),
    }
}

fn replaces_by(bits: u32) -> Option<bool>
    ensures right { IfSome result (λ replace. Replaces (Some bits) replace) }
    ensures wrong { IfNone result ((replace : Bool) → Replaces (Some bits) replace → ⊥) }
{
    if bits == 0 {
        Some(false)
    } else if bits == 1 {
        Some(true)
    } else if bits == 4 {
        Some(false)
    } else if bits == 5 {
        Some(true)
    } else {
        None
    }
}

fn create_of(alloc: Global, object: &Object, code: &[u8]) -> Result<HookItem, TransactionFault>
    requires { lookup create_code (items object.now) ≡ Some code.now }
    ensures ok { IfOk result (λ item. IsCreate (items object.now) item) }
    ensures malformed { result ≡ Err TransactionFault.Malformed → (item : HookItem) → IsCreate (items object.now) item →
        ⊥ }
{
    if !has_only(
        object,
        &[
            FLAGS,
            HOOK_ON,
            HOOK_NAMESPACE,
            HOOK_API_VERSION,
            CREATE_CODE,
            HOOK_PARAMETERS,
            HOOK_GRANTS,
        ],
    ) {
        return Err(TransactionFault::Malformed);
    }
    let version = match number16_at(object, HOOK_API_VERSION) {
        None => return Err(TransactionFault::Malformed),
        Some(version) => version,
    };
    if version > LAST_VERSION {
        return Err(TransactionFault::Malformed);
    }
    let code = copied(alloc, code)?;
    match terms_of(alloc, object) {
        Err(fault) => Err(fault),
        Ok(terms) => Ok(terms.create(code, version)),
    }
}

fn install_of(alloc: Global, object: &Object) -> Result<HookItem, TransactionFault>
    ensures ok { IfOk result (λ item. IsInstall (items object.now) item) }
    ensures malformed { result ≡ Err TransactionFault.Malformed → (item : HookItem) →
        IsInstall (items object.now) item → ⊥ }
{
    if !has_only(
        object,
        &[
            FLAGS,
            HOOK_ON,
            HOOK_HASH,
            HOOK_NAMESPACE,
            HOOK_PARAMETERS,
            HOOK_GRANTS,
        ],
    ) {
        return Err(TransactionFault::Malformed);
    }
    let hash = match hash_at(object, HOOK_HASH) {
        None => return Err(TransactionFault::Malformed),
        Some(hash) => hash,
    };
    match terms_of(alloc, object) {
        Err(fault) => Err(fault),
        Ok(terms) => Ok(terms.install(hash)),
    }
}

/// What the fields of an item that installs a hook say of it besides its code.
fn terms_of(alloc: Global, object: &Object) -> Result<Terms, TransactionFault>
    ensures ok { IfOk result (λ terms. TermsAre (items object.now) terms) }
    ensures malformed { result ≡ Err TransactionFault.Malformed → (terms : Terms) → TermsAre (items object.now) terms →
        ⊥ }
{
    let on = match hash_at(object, HOOK_ON) {
        None => return Err(TransactionFault::Malformed),
        Some(on) => on,
    };
    let namespace = match hash_at(object, HOOK_NAMESPACE) {
        None => return Err(TransactionFault::Malformed),
        Some(namespace) => namespace,
    };
    let replace = match replaces(object) {
        None => return Err(TransactionFault::Malformed),
        Some(replace) => replace,
    };
    let parameters = given_parameters(alloc, object)?;
    let grants = given_grants(alloc, object)?;
    Ok(Terms {
        on,
        namespace,
        parameters: parameters_or_none(alloc, parameters),
        grants: grants_or_none(alloc, grants),
        replace,
    })
}

fn update_of(alloc: Global, object: &Object) -> Result<HookItem, TransactionFault>
    ensures ok { IfOk result (λ item. IsUpdate (items object.now) item) }
    ensures malformed { result ≡ Err TransactionFault.Malformed → (item : HookItem) → IsUpdate (items object.now) item →
        ⊥ }
{
    if !has_only(
        object,
        &[FLAGS, HOOK_ON, HOOK_NAMESPACE, HOOK_PARAMETERS, HOOK_GRANTS],
    ) {
        return Err(TransactionFault::Malformed);
    }
    if let None = replaces(object) {
        return Err(TransactionFault::Malformed);
    }
    let on = hash_at(object, HOOK_ON);
    let namespace = hash_at(object, HOOK_NAMESPACE);
    let parameters = given_parameters(alloc, object)?;
    let grants = given_grants(alloc, object)?;
    if on.is_none() && namespace.is_none() && parameters.is_none() && grants.is_none() {
        return Err(TransactionFault::Malformed);
    }
    Ok(HookItem::Update {
        on,
        namespace,
        parameters,
        grants,
    })
}

/// The parameters that were given, or none.
pub fn parameters_or_none(alloc: Global, given: Option<Items<Parameter>>) -> Items<Parameter>
    ensures parameters { result ≡ or_empty given }
{
    match given {
        None => Items::new(alloc),
        Some(parameters) => parameters,
    }
}

fn grants_or_none(alloc: Global, given: Option<Items<Grant>>) -> Items<Grant>
    ensures grants { result ≡ or_empty given }
{
    match given {
        None => Items::new(alloc),
        Some(grants) => grants,
    }
}
