ghost use Rattle.std.specs.Prelude.{◌≡◌, IfOk};

use hk_base::{AccountId, Hash256, NoMemory};
use xo_object::Transaction;

/// A transaction that a hook emitted, and what the ledger keeps of it.
#[derive(Debug, Drop)]
pub struct Emission {
    pub transaction: Transaction,
    /// The nonce that it uses up.
    pub nonce: Hash256,
    /// The hash of the hook that emitted it.
    pub hash: Hash256,
    /// The first ledger that takes it.
    pub first: u32,
    /// The last ledger that takes it.
    pub last: u32,
    /// The account whose hook is called back.
    pub callback: Option<AccountId>,
}

impl Emission {
    /// An equal emission.
    pub fn copy(&self) -> Result<Emission, NoMemory>
        ensures same { IfOk result (λ copied. copied ≡ self.now) }
    {
        let transaction = self.transaction.copy()?;
        Ok(Emission {
            transaction,
            nonce: self.nonce,
            hash: self.hash,
            first: self.first,
            last: self.last,
            callback: self.callback,
        })
    }
}
