ghost use Rattle.std.specs.Prelude.{◌≡◌, ◌≤◌, ◌<◌, IfSome, Some, length, map, option_map, slice_get};
ghost use Rattle.std.specs.List.{position};
ghost use Rattle.std.specs.Str.{bytes_eq};
ghost use Rattle.wa_ops.specs.Rows.{row_answer, row_named, row_parameters, shown};

use crate::call_no::CallNo;
use crate::op::ValueType;
use crate::op::ValueType::{I32, I64};

/// A call of the API: its name, the types of what it takes, in order, and the type of its answer.
#[derive(Clone, Copy)]
struct ApiCall(&'static [u8], &'static [ValueType], ValueType);

const API_CALLS: [ApiCall; 65] = [
    ApiCall(b"_g", &[I32, I32], I32),
    ApiCall(b"accept", &[I32, I32, I64], I64),
    ApiCall(b"rollback", &[I32, I32, I64], I64),
    ApiCall(b"util_sha512h", &[I32; 4], I64),
    ApiCall(b"util_keylet", &[I32; 9], I64),
    ApiCall(b"sto_subfield", &[I32, I32, I32], I64),
    ApiCall(b"sto_subarray", &[I32, I32, I32], I64),
    ApiCall(b"sto_emplace", &[I32; 7], I64),
    ApiCall(b"sto_erase", &[I32; 5], I64),
    ApiCall(b"sto_validate", &[I32, I32], I64),
    ApiCall(b"float_one", &[], I64),
    ApiCall(b"float_set", &[I32, I64], I64),
    ApiCall(b"float_multiply", &[I64, I64], I64),
    ApiCall(b"float_mulratio", &[I64, I32, I32, I32], I64),
    ApiCall(b"float_divide", &[I64, I64], I64),
    ApiCall(b"float_invert", &[I64], I64),
    ApiCall(b"float_sum", &[I64, I64], I64),
    ApiCall(b"float_negate", &[I64], I64),
    ApiCall(b"float_compare", &[I64, I64, I32], I64),
    ApiCall(b"float_mantissa", &[I64], I64),
    ApiCall(b"float_sign", &[I64], I64),
    ApiCall(b"float_int", &[I64, I32, I32], I64),
    ApiCall(b"float_sto", &[I32, I32, I32, I32, I32, I32, I64, I32], I64),
    ApiCall(b"float_sto_set", &[I32, I32], I64),
    ApiCall(b"trace", &[I32; 5], I64),
    ApiCall(b"trace_num", &[I32, I32, I64], I64),
    ApiCall(b"trace_float", &[I32, I32, I64], I64),
    ApiCall(b"fee_base", &[], I64),
    ApiCall(b"ledger_seq", &[], I64),
    ApiCall(b"ledger_last_time", &[], I64),
    ApiCall(b"ledger_last_hash", &[I32, I32], I64),
    ApiCall(b"ledger_nonce", &[I32, I32], I64),
    ApiCall(b"hook_account", &[I32, I32], I64),
    ApiCall(b"hook_hash", &[I32, I32, I32], I64),
    ApiCall(b"hook_pos", &[], I64),
    ApiCall(b"hook_param", &[I32; 4], I64),
    ApiCall(b"hook_param_set", &[I32; 6], I64),
    ApiCall(b"hook_skip", &[I32, I32, I32], I64),
    ApiCall(b"otxn_type", &[], I64),
    ApiCall(b"otxn_id", &[I32, I32, I32], I64),
    ApiCall(b"otxn_field", &[I32, I32, I32], I64),
    ApiCall(b"otxn_slot", &[I32], I64),
    ApiCall(b"otxn_param", &[I32; 4], I64),
    ApiCall(b"otxn_burden", &[], I64),
    ApiCall(b"otxn_generation", &[], I64),
    ApiCall(b"slot", &[I32, I32, I32], I64),
    ApiCall(b"slot_set", &[I32, I32, I32], I64),
    ApiCall(b"slot_clear", &[I32], I64),
    ApiCall(b"slot_count", &[I32], I64),
    ApiCall(b"slot_size", &[I32], I64),
    ApiCall(b"slot_subfield", &[I32, I32, I32], I64),
    ApiCall(b"slot_subarray", &[I32, I32, I32], I64),
    ApiCall(b"slot_type", &[I32, I32], I64),
    ApiCall(b"slot_float", &[I32], I64),
    ApiCall(b"state", &[I32; 4], I64),
    ApiCall(b"state_set", &[I32; 4], I64),
    ApiCall(b"state_foreign", &[I32; 8], I64),
    ApiCall(b"state_foreign_set", &[I32; 8], I64),
    ApiCall(b"etxn_reserve", &[I32], I64),
    ApiCall(b"etxn_burden", &[], I64),
    ApiCall(b"etxn_generation", &[], I64),
    ApiCall(b"etxn_nonce", &[I32, I32], I64),
    ApiCall(b"etxn_details", &[I32, I32], I64),
    ApiCall(b"etxn_fee_base", &[I32, I32], I64),
    ApiCall(b"emit", &[I32; 4], I64),
];

/// The place of a name in a table of calls.
fn place_of(calls: &[ApiCall], name: &[u8]) -> Option<usize>
    ensures place { result ≡ position (λ call. bytes_eq call.0.now name.now) calls.now }
{
    calls.iter().position(|call| call.0 == name)
}

/// The call in a row of a table of calls.
#[tactic(auto, using(crate::proofs::Tables::got))]
fn call_at(calls: &[ApiCall], row: usize) -> ApiCall
    requires row { row < length calls.now }
    ensures call { slice_get (map shown calls.now) row ≡ Some (shown result) }
{
    calls[row]
}

/// The row of the call with this name.
#[tactic(auto, unfolding(crate::specs::Rows::row_named, crate::specs::Rows::api_calls))]
pub fn call_by_name(name: &[u8]) -> Option<CallNo>
    ensures row { row_named name.now ≡ option_map (λ number. number.0) result }
    ensures listed { IfSome result (λ number. number.0 ≤ 64) }
{
    let row = place_of(&API_CALLS, name)?;
    Some(CallNo(row as u8))
}

/// The types of the parameters of the call in this row.
#[tactic(auto, unfolding(crate::specs::Rows::row_parameters, crate::specs::Rows::api_calls))]
pub fn call_parameters(number: CallNo) -> &'static [ValueType]
    requires row { number.0 ≤ 64 }
    ensures parameters { result.now ≡ row_parameters number.0 }
{
    call_at(&API_CALLS, usize::from(number.0)).1
}

/// The type of the answer of the call in this row.
#[tactic(auto, unfolding(crate::specs::Rows::row_answer, crate::specs::Rows::api_calls))]
pub fn call_answer(number: CallNo) -> ValueType
    requires row { number.0 ≤ 64 }
    ensures answer { result ≡ row_answer number.0 }
{
    call_at(&API_CALLS, usize::from(number.0)).2
}
