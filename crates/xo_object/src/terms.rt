//! What an item that installs a hook says of it besides its code.
ghost use Rattle.std.specs.Prelude.{◌≡◌, IfOk};
ghost use Rattle.xo_object.specs.declared.transaction.HookItem.TheVariants.{Create, Install};

use crate::transaction::{Grant, HookItem, Parameter, copy_parameters};
use hk_base::{Hash256, Items, NoMemory};

/// What an item that installs a hook says of it besides its code.
#[derive(Drop)]
pub struct Terms {
    pub on: Hash256,
    pub namespace: Hash256,
    pub parameters: Items<Parameter>,
    pub grants: Items<Grant>,
    pub replace: bool,
}

impl Terms {
    /// The item that installs new code.
    pub fn create(self, code: Items<u8>, version: u16) -> HookItem
        ensures item { result ≡ Create code version self.on self.namespace self.parameters self.grants self.replace }
    {
        let Terms {
            on,
            namespace,
            parameters,
            grants,
            replace,
        } = self;
        HookItem::Create {
            code,
            version,
            on,
            namespace,
            parameters,
            grants,
            replace,
        }
    }

    /// The item that installs code that the ledger has.
    pub fn install(self, hash: Hash256) -> HookItem
        ensures item { result ≡ Install hash self.on self.namespace self.parameters self.grants self.replace }
    {
        let Terms {
            on,
            namespace,
            parameters,
            grants,
            replace,
        } = self;
        HookItem::Install {
            hash,
            on,
            namespace,
            parameters,
            grants,
            replace,
        }
    }
}

/// Terms of the same lists.
pub fn copy_terms(
    on: Hash256,
    namespace: Hash256,
    parameters: &Items<Parameter>,
    grants: &Items<Grant>,
    replace: bool,
) -> Result<Terms, NoMemory>
    ensures same { IfOk result (λ terms.
        terms
        ≡ record {
          on = on;
          namespace = namespace;
          parameters = parameters.now;
          grants = grants.now;
          replace = replace;
        }) }
{
    let parameters = copy_parameters(parameters.allocator(), parameters.as_slice())?;
    let grants = grants.copy()?;
    Ok(Terms {
        on,
        namespace,
        parameters,
        grants,
        replace,
    })
}
