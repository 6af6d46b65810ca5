//! How much an account has on the ledger.
ghost use Rattle.std.specs.Prelude.{◌≡◌, ◌<◌, ◌^◌};
ghost use Rattle.hk_final.specs.Final.{number_of};

use hk_state::{Key, Ledger, is_own};

/// How many entries there are of the account and the kind of a first key. It goes over these alone, and takes no
/// memory.
pub fn number_of(ledger: &Ledger, first: &Key) -> u64
    requires few { number_of first.now ledger.now.entries < 2 ^ 64 }
    ensures number { result ≡ number_of first.now ledger.now.entries }
{
    let mut number = 0;
    let mut next = ledger.least_from(first);
    while let Some((key, _entry)) = next {
        if !is_own(first, key) {
            break;
        }
        number += 1;
        next = ledger.least_after(key);
    }
    number
}
