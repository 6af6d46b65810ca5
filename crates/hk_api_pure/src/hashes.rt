//! Rows 3 and 4: a hash, and the keylets of ledger entries.
ghost use Rattle.std.specs.Prelude.{◌≡◌, ◌∷◌};
ghost use Rattle.hk_calls.specs.Answers.{Gave};
ghost use Rattle.hk_calls.specs.Outputs.{settled};
ghost use Rattle.hk_api_pure.specs.Hashes as rows;

use hk_base::{Hash256, account_index, sha512half, state_index};
use hk_calls::{Code, Pair, account_of, hash_of, inside, key, read, refuse, write_out};
use wa_num::Memory;

/// The first bytes of the keylet of an account's entry.
const ACCOUNT_SPACE: u8 = 0x61;
/// The same, of a hook's state entry.
const STATE_SPACE: u8 = 0x76;

/// Row 3: SHA-512Half of bytes.
pub(crate) fn util_sha512h(memory: &mut Memory, write: Pair, from: Pair) -> Result<i64, Code>
    ensures { Gave memory.old memory.new result (settled memory.old write (rows.util_sha512h memory.old write from)) }
{
    inside(memory, write)?;
    let hash = sha512half(read(memory, from)?);
    write_out(memory, write, &hash.0)
}

/// Row 4: the keylet of a ledger entry of this kind.
#[tactic(auto, unfolding(crate::specs::Hashes::util_keylet))]
pub(crate) fn util_keylet(
    memory: &mut Memory,
    write: Pair,
    kind: u32,
    ab: Pair,
    cd: Pair,
    ef: Pair,
) -> Result<i64, Code>
    ensures { Gave memory.old memory.new result
        (settled memory.old write (rows.util_keylet memory.old write kind ab cd ef)) }
{
    inside(memory, write)?;
    let bytes = keylet(memory, kind, ab, cd, ef)?;
    write_out(memory, write, &bytes)
}

fn keylet(memory: &Memory, kind: u32, ab: Pair, cd: Pair, ef: Pair) -> Result<[u8; 34], Code>
    ensures { result ≡ rows.keylet memory.now kind ab cd ef }
{
    match kind {
        2 => state_keylet(memory, ab, cd, ef),
        3 => account_keylet(memory, ab, cd, ef),
        _ => Err(Code::NoSuchKeylet),
    }
}

fn state_keylet(memory: &Memory, ab: Pair, cd: Pair, ef: Pair) -> Result<[u8; 34], Code>
    ensures { result ≡ rows.state_keylet memory.now ab cd ef }
{
    refuse(!(ab.count == 20 && ef.count == 32), Code::InvalidArgument)?;
    let account = account_of(read(memory, ab)?);
    let bytes = read(memory, cd)?;
    let namespace = hash_of(read(memory, ef)?);
    let key = key(bytes)?;
    Ok(in_space(STATE_SPACE, &state_index(&account, &key, &namespace)))
}

fn account_keylet(memory: &Memory, ab: Pair, cd: Pair, ef: Pair) -> Result<[u8; 34], Code>
    ensures { result ≡ rows.account_keylet memory.now ab cd ef }
{
    refuse(!(is_zero(cd) && is_zero(ef)), Code::InvalidArgument)?;
    refuse(ab.count != 20, Code::InvalidArgument)?;
    let account = account_of(read(memory, ab)?);
    Ok(in_space(ACCOUNT_SPACE, &account_index(&account)))
}

fn is_zero(pair: Pair) -> bool
    ensures { result ≡ rows.is_zero pair }
{
    pair.at == 0 && pair.count == 0
}

/// The index of an entry behind the two bytes of its space.
fn in_space(space: u8, index: &Hash256) -> [u8; 34]
    ensures { result ≡ 0 ∷ space ∷ index.now.0 }
{
    let mut keylet = [0; 34];
    keylet[1] = space;
    keylet[2..].copy_from_slice(&index.0);
    keylet
}
