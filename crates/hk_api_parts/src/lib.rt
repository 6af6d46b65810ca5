//! The calls of hooks that need a part of the host's state alone: the setting, the place, what a chain passes on, the
//! slots, or the counters of emissions.
#![tactic(auto)]

mod chain_state;
mod emitting;
mod place;
mod setting;
mod slot_rows;

pub use chain_state::{ChainState, hook_param_set, is_skipped, named, override_of, skip, unskip};
pub use emitting::{
    Emitting, context_of, etxn_burden, etxn_details, etxn_generation, etxn_nonce, etxn_reserve,
    ledger_nonce, own_burden, use_up,
};
pub use place::{Place, hook_account, hook_pos};
pub use setting::{
    Setting, fee_base, ledger_last_hash, ledger_last_time, ledger_seq, otxn_burden, otxn_field,
    otxn_generation, otxn_id, otxn_param, otxn_type,
};
pub use slot_rows::{
    code_of, otxn_slot, put_object, slot, slot_clear, slot_count, slot_float, slot_size,
    slot_subarray, slot_subfield, slot_type,
};
