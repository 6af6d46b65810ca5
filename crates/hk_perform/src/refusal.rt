//! The results that take no fee, in their order.
ghost use Rattle.std.specs.Prelude.{◌≡◌, ◌<◌, ◌^◌};
ghost use Rattle.hk_base.specs.Rows.{first_row};
ghost use Rattle.hk_events.specs.Results.{account_rows, is_after, is_before, refusal_rows, sequence_rows, window_rows};
ghost use Rattle.hk_state.specs.Fees.{needed_fee};
ghost use Rattle.hk_state.specs.Rules.{Rules};
ghost use Rattle.hk_engine.specs.Engine.{engine_of};
ghost use Rattle.hk_perform.specs.Meets.{found_by, has_bad_signature, origin_of};

use crate::origin::Origin;
use hk_lines::{ResultName, Verdict};
use hk_state::{Holding, Ledger, needed_fee};
use xo_object::Transaction;

/// Whether a ledger comes before the first one that takes a transaction.
fn comes_early(seq: u32, first: Option<u32>) -> bool
    ensures early { result ≡ is_before seq first }
{
    match first {
        None => false,
        Some(first) => seq < first,
    }
}

/// Whether a ledger comes after the last one that takes a transaction.
fn comes_late(seq: u32, last: Option<u32>) -> bool
    ensures late { result ≡ is_after seq last }
{
    match last {
        None => false,
        Some(last) => last < seq,
    }
}

/// The first of the results that any transaction of an account may have.
fn window_refusal(
    ledger: &Ledger,
    transaction: &Transaction,
    holding: Holding,
) -> Option<ResultName>
    requires fits { needed_fee ledger.now.entries transaction.now < 2 ^ 64 }
    ensures rows { result ≡ first_row (window_rows ledger.now.header.seq
        (needed_fee ledger.now.entries transaction.now) transaction.now holding) }
{
    let seq = ledger.header().seq;
    if comes_early(seq, transaction.first) {
        return Some(ResultName::Early);
    }
    if comes_late(seq, transaction.last) {
        return Some(ResultName::Expired);
    }
    if transaction.fee < needed_fee(ledger, transaction) {
        return Some(ResultName::FeeTooSmall);
    }
    if holding.balance < transaction.fee {
        return Some(ResultName::FeeUnfunded);
    }
    None
}

/// The first result of a transaction of an account: one that was handed in has its place in the account's sequence.
fn account_refusal(
    ledger: &Ledger,
    origin: Origin,
    transaction: &Transaction,
    holding: Holding,
) -> Option<ResultName>
    requires fits { needed_fee ledger.now.entries transaction.now < 2 ^ 64 }
    ensures rows { result ≡ first_row (account_rows ledger.now.header.seq
        (needed_fee ledger.now.entries transaction.now) (origin_of origin) transaction.now (Some holding)) }
{
    match origin {
        Origin::Queued(_) => window_refusal(ledger, transaction, holding),
        Origin::Handed(_) => {
            if transaction.sequence < holding.sequence {
                return Some(ResultName::PastSequence);
            }
            if holding.sequence < transaction.sequence {
                return Some(ResultName::FutureSequence);
            }
            window_refusal(ledger, transaction, holding)
        }
    }
}

/// Whether a transaction that is handed in has a wrong signature.
fn has_bad_signature(origin: Origin) -> bool
    ensures bad { result ≡ has_bad_signature origin }
{
    match origin {
        Origin::Handed(Verdict::Bad) => true,
        Origin::Handed(Verdict::Good) => false,
        Origin::Queued(_) => false,
    }
}

/// The first result that applies and takes no fee, if one does.
pub(crate) fn refusal(
    ledger: &Ledger,
    origin: Origin,
    transaction: &Transaction,
) -> Option<ResultName>
    requires fits { needed_fee ledger.now.entries transaction.now < 2 ^ 64 }
    ensures rows { (rules : Rules) → result ≡ first_row (refusal_rows (engine_of rules) ledger.now.entries
        (found_by ledger.now origin) (origin_of origin) transaction.now) }
{
    if has_bad_signature(origin) {
        return Some(ResultName::BadSignature);
    }
    match ledger.holding(&transaction.account) {
        None => Some(ResultName::NoAccount),
        Some(holding) => account_refusal(ledger, origin, transaction, holding),
    }
}
