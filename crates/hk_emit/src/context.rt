use hk_base::{AccountId, Hash256};

/// What an emission has to say of the execution that emits it.
#[derive(Clone, Copy, Debug, PartialEq, Eq)]
pub struct EmitContext {
    /// The hook's account.
    pub account: AccountId,
    /// The hook's hash.
    pub hash: Hash256,
    /// The id of the transaction that the hook runs on.
    pub parent: Hash256,
    /// Whether the hook has a callback.
    pub with_callback: bool,
    /// The sequence number of the open ledger.
    pub seq: u32,
    /// How many emissions lead to the emission, itself among them.
    pub generation: u32,
    /// The burden of the emission.
    pub burden: u64,
}
