//! Transactions, and the items by which one installs hooks.
ghost use Rattle.std.specs.Prelude.{◌≡◌, IfOk};
ghost use Rattle.xo_object.specs.declared.transaction.HookItem.TheVariants.{Update};

use crate::terms::copy_terms;
use hk_base::{AccountId, Hash256, Items, NoMemory};
use std::alloc::Global;
use xo_fields::Amount;

/// A named value that a hook is given: a name of 1 to 32 bytes and a value of up to 256.
#[derive(Debug, Drop)]
pub struct Parameter {
    pub name: Items<u8>,
    pub value: Items<u8>,
}

impl Parameter {
    /// An equal parameter.
    pub fn copy(&self) -> Result<Parameter, NoMemory>
        ensures same { IfOk result (λ copied. copied ≡ self.now) }
    {
        let name = self.name.copy()?;
        let value = self.value.copy()?;
        Ok(Parameter { name, value })
    }
}

/// Leave for a hook to write state: any account's hook of that hash, or one account's.
#[derive(Clone, Copy, Debug, PartialEq, Eq)]
pub struct Grant {
    pub hash: Hash256,
    pub account: Option<AccountId>,
}

impl Grant {
    /// An equal grant. Takes no memory.
    pub fn copy(&self) -> Result<Grant, NoMemory>
        ensures same { IfOk result (λ copied. copied ≡ self.now) }
    {
        Ok(*self)
    }
}

/// What a transaction does to the hook at one position of its account.
#[derive(Debug, Drop)]
pub enum HookItem {
    /// Nothing.
    Noop,
    /// Removes the state of a namespace.
    DeleteNamespace(Hash256),
    /// Removes the hook.
    Delete,
    /// Installs new code, over a hook that is there only with `replace`.
    Create {
        code: Items<u8>,
        version: u16,
        on: Hash256,
        namespace: Hash256,
        parameters: Items<Parameter>,
        grants: Items<Grant>,
        replace: bool,
    },
    /// Installs code that the ledger has, over a hook that is there only with `replace`.
    Install {
        hash: Hash256,
        on: Hash256,
        namespace: Hash256,
        parameters: Items<Parameter>,
        grants: Items<Grant>,
        replace: bool,
    },
    /// Replaces what is given.
    Update {
        on: Option<Hash256>,
        namespace: Option<Hash256>,
        parameters: Option<Items<Parameter>>,
        grants: Option<Items<Grant>>,
    },
}

impl HookItem {
    /// An equal item.
    pub fn copy(&self) -> Result<HookItem, NoMemory>
        ensures same { IfOk result (λ copied. copied ≡ self.now) }
    {
        match self {
            HookItem::Noop => Ok(HookItem::Noop),
            HookItem::DeleteNamespace(namespace) => Ok(HookItem::DeleteNamespace(*namespace)),
            HookItem::Delete => Ok(HookItem::Delete),
            HookItem::Create {
                code,
                version,
                on,
                namespace,
                parameters,
                grants,
                replace,
            } => {
                let terms = copy_terms(*on, *namespace, parameters, grants, *replace)?;
                Ok(terms.create(code.copy()?, *version))
            }
            HookItem::Install {
                hash,
                on,
                namespace,
                parameters,
                grants,
                replace,
            } => {
                let terms = copy_terms(*on, *namespace, parameters, grants, *replace)?;
                Ok(terms.install(*hash))
            }
            HookItem::Update {
                on,
                namespace,
                parameters,
                grants,
            } => copy_update(*on, *namespace, parameters, grants),
        }
    }
}

/// A transaction, as its object's fields give it.
#[derive(Debug, Drop)]
pub struct Transaction {
    /// Its type: 0 Payment, 3 AccountSet, 22 SetHook or 99 Invoke.
    pub kind: u16,
    pub account: AccountId,
    pub destination: Option<AccountId>,
    pub sequence: u32,
    /// Drops.
    pub fee: u64,
    /// The first ledger that takes it.
    pub first: Option<u32>,
    /// The last ledger that takes it.
    pub last: Option<u32>,
    pub amount: Option<Amount>,
    pub parameters: Items<Parameter>,
    pub hooks: Items<HookItem>,
    /// Whether SendMax or DeliverMin is there.
    pub other_amounts: bool,
    /// How many emissions led to it, 0 where it wasn't emitted.
    pub generation: u32,
    /// 1 where it wasn't emitted.
    pub burden: u64,
    /// Its bytes.
    pub blob: Items<u8>,
    /// The hash of its bytes.
    pub id: Hash256,
}

impl Transaction {
    /// An equal transaction.
    pub fn copy(&self) -> Result<Transaction, NoMemory>
        ensures same { IfOk result (λ copied. copied ≡ self.now) }
    {
        let parameters = copy_parameters(self.parameters.allocator(), self.parameters.as_slice())?;
        let hooks = copy_hooks(self.hooks.allocator(), self.hooks.as_slice())?;
        let blob = self.blob.copy()?;
        Ok(Transaction {
            kind: self.kind,
            account: self.account,
            destination: self.destination,
            sequence: self.sequence,
            fee: self.fee,
            first: self.first,
            last: self.last,
            amount: self.amount,
            parameters,
            hooks,
            other_amounts: self.other_amounts,
            generation: self.generation,
            burden: self.burden,
            blob,
            id: self.id,
        })
    }
}

/// An equal list of parameters.
pub fn copy_parameters(
    alloc: Global,
    parameters: &[Parameter],
) -> Result<Items<Parameter>, NoMemory>
    ensures same { IfOk result (λ copied. copied ≡ parameters.now) }
{
    let mut copied = Items::new(alloc);
    for parameter in parameters {
        let own = parameter.copy()?;
        copied.push(own)?;
    }
    Ok(copied)
}

/// An equal list of items.
fn copy_hooks(alloc: Global, hooks: &[HookItem]) -> Result<Items<HookItem>, NoMemory>
    ensures same { IfOk result (λ copied. copied ≡ hooks.now) }
{
    let mut copied = Items::new(alloc);
    for hook in hooks {
        let own = hook.copy()?;
        copied.push(own)?;
    }
    Ok(copied)
}

/// The item that replaces the same.
fn copy_update(
    on: Option<Hash256>,
    namespace: Option<Hash256>,
    parameters: &Option<Items<Parameter>>,
    grants: &Option<Items<Grant>>,
) -> Result<HookItem, NoMemory>
    ensures same { IfOk result (λ item. item ≡ Update on namespace parameters.now grants.now) }
{
    let parameters = copy_given_parameters(parameters)?;
    let grants = copy_given_grants(grants)?;
    Ok(HookItem::Update {
        on,
        namespace,
        parameters,
        grants,
    })
}

fn copy_given_parameters(
    parameters: &Option<Items<Parameter>>,
) -> Result<Option<Items<Parameter>>, NoMemory>
    ensures same { IfOk result (λ copied. copied ≡ parameters.now) }
{
    match parameters {
        None => Ok(None),
        Some(given) => {
            let own = copy_parameters(given.allocator(), given.as_slice())?;
            Ok(Some(own))
        }
    }
}

fn copy_given_grants(grants: &Option<Items<Grant>>) -> Result<Option<Items<Grant>>, NoMemory>
    ensures same { IfOk result (λ copied. copied ≡ grants.now) }
{
    match grants {
        None => Ok(None),
        Some(given) => {
            let own = given.copy()?;
            Ok(Some(own))
        }
    }
}
