//! What a hook passes on to the hooks after it, and the row that overrides their parameters.
ghost use Rattle.std.specs.Prelude.{◌≡◌, ◌<◌, length, IfSome, IfOk, OnOk, OnErr};
ghost use Rattle.std.specs.List.{position};
ghost use Rattle.std.specs.Option.{option_copied};
ghost use Rattle.hk_calls.specs.Answers.{GaveUnless};
ghost use Rattle.hk_api_parts.specs.Overrides as rows;
ghost use Rattle.hk_api_parts.specs.Skips as skips;

use hk_base::{Hash256, Items, NoMemory};
use hk_calls::{Code, Pair, Refusal, hash_of, name, read, refuse};
use std::alloc::Global;
use wa_num::Memory;
use xo_object::Parameter;

/// The most bytes of a parameter's value.
const LONGEST_VALUE: u32 = 256;

/// The most names that are overridden for one hash.
const MOST_NAMES: usize = 16;

/// What a hook passes on to the hooks after it on its account: hashes that are skipped, and parameters that the hooks
/// of a hash are given instead of their own.
#[derive(Debug, Drop)]
pub struct ChainState {
    pub skipped: Items<Hash256>,
    pub overrides: Items<(Hash256, Parameter)>,
}

/// The first parameter of a name.
#[tactic(auto, unfolding(crate::specs::Overrides::named))]
pub fn named<'p>(parameters: &'p [Parameter], name: &[u8]) -> Option<&'p Parameter>
    ensures { option_copied result ≡ rows.named name.now parameters.now }
{
    parameters
        .iter()
        .find(|parameter| parameter.name.as_slice() == name)
}

/// The place of the first override of a name for a hash.
#[tactic(auto, unfolding(crate::specs::Overrides::override_place))]
fn override_place(overrides: &[(Hash256, Parameter)], hash: &Hash256, name: &[u8]) -> Option<usize>
    ensures place { result ≡ rows.override_place hash.now name.now overrides.now }
    ensures within { IfSome result (λ place. place < length overrides.now) }
{
    overrides.iter().position(|entry| entry.0 == *hash && entry.1.name.as_slice() == name)
}

/// The override of a name for a hash.
#[tactic(auto, unfolding(crate::specs::Overrides::override_of))]
pub fn override_of<'o>(
    overrides: &'o [(Hash256, Parameter)],
    hash: &Hash256,
    name: &[u8],
) -> Option<&'o [u8]>
    ensures { option_copied result ≡ rows.override_of hash.now name.now overrides.now }
{
    match override_place(overrides, hash, name) {
        Some(place) => Some(overrides[place].1.value.as_slice()),
        None => None,
    }
}

/// How many names are overridden for a hash.
#[tactic(auto, unfolding(crate::specs::Overrides::names_for))]
fn names_for(overrides: &[(Hash256, Parameter)], hash: &Hash256) -> usize
    ensures { result ≡ rows.names_for hash.now overrides.now }
{
    overrides.iter().filter(|entry| entry.0 == *hash).count()
}

/// A copy of bytes.
fn copied(alloc: Global, bytes: &[u8]) -> Result<Items<u8>, NoMemory>
    ensures { IfOk result (λ copy. copy ≡ bytes.now) }
{
    let copy = Vec::from_slice(alloc, bytes)?;
    Ok(Items::from_vec(copy))
}

/// Puts an override in the place of the first one of its name for its hash, or last where there is none.
fn put_override(
    alloc: Global,
    chain: &mut ChainState,
    hash: Hash256,
    parameter: Parameter,
) -> Result<(), NoMemory>
    ensures ok { OnOk result (chain.new ≡ rows.with_override chain.old hash parameter) }
    ensures err { OnErr result (chain.new ≡ chain.old) }
{
    match override_place(chain.overrides.as_slice(), &hash, parameter.name.as_slice()) {
        Some(place) => {
            let kept = std::mem::replace(&mut chain.overrides, Items::new(alloc));
            let mut entries = kept.into_vec();
            entries[place] = (hash, parameter);
            chain.overrides = Items::from_vec(entries);
            Ok(())
        }
        None => chain.overrides.push((hash, parameter)),
    }
}

/// Row 36: gives the hooks of a hash a value for a name, and answers how many bytes it has.
pub fn hook_param_set(
    alloc: Global,
    chain: &mut ChainState,
    memory: &Memory,
    from: Pair,
    named: Pair,
    by: Pair,
) -> Result<i64, Refusal>
    ensures { GaveUnless chain.old chain.new result (rows.hook_param_set chain.old memory.now from named by) }
{
    let value = read(memory, from)?;
    let bytes = read(memory, named)?;
    let hash = read(memory, by)?;
    refuse(from.count > LONGEST_VALUE, Code::TooBig)?;
    let name = name(bytes)?;
    refuse(by.count != 32, Code::InvalidArgument)?;
    let hash = hash_of(hash);
    refuse(
        is_full(chain.overrides.as_slice(), &hash, name),
        Code::TooManyParams,
    )?;
    let count = value.len() as i64;
    let name = copied(alloc, name)?;
    let value = copied(alloc, value)?;
    put_override(alloc, chain, hash, Parameter { name, value })?;
    Ok(count)
}

/// Whether a name is one too many for a hash.
fn is_full(overrides: &[(Hash256, Parameter)], hash: &Hash256, name: &[u8]) -> bool
    ensures { result ≡ rows.is_full hash.now name.now overrides.now }
{
    override_place(overrides, hash, name).is_none() && names_for(overrides, hash) >= MOST_NAMES
}

/// Whether a hash is skipped.
#[tactic(auto, unfolding(crate::specs::Skips::is_skipped))]
pub fn is_skipped(skipped: &[Hash256], hash: &Hash256) -> bool
    ensures { result ≡ skips.is_skipped hash.now skipped.now }
{
    skipped.iter().any(|other| other == hash)
}

/// Skips the hooks of a hash. Want of memory changes nothing.
pub fn skip(chain: &mut ChainState, hash: Hash256) -> Result<(), NoMemory>
    ensures ok { OnOk result (chain.new ≡ skips.with_skip chain.old hash) }
    ensures err { OnErr result (chain.new ≡ chain.old) }
{
    if is_skipped(chain.skipped.as_slice(), &hash) {
        return Ok(());
    }
    chain.skipped.push(hash)
}

/// The place of the first hash of a list that is this one.
fn place_of(hashes: &[Hash256], hash: &Hash256) -> Option<usize>
    ensures place { result ≡ position (skips.is_hash hash.now) hashes.now }
    ensures within { IfSome result (λ place. place < length hashes.now) }
{
    hashes.iter().position(|other| other == hash)
}

/// Takes the first such hash out of a list.
#[tactic(auto, unfolding(crate::specs::Skips::without_hash))]
pub(crate) fn remove_hash(alloc: Global, hashes: &mut Items<Hash256>, hash: &Hash256)
    ensures removed { hashes.new ≡ skips.without_hash hash.now hashes.old }
{
    match place_of(hashes.as_slice(), hash) {
        None => (),
        Some(place) => {
            let mut kept = std::mem::replace(hashes, Items::new(alloc)).into_vec();
            let _taken = kept.remove(place);
            *hashes = Items::from_vec(kept);
        }
    }
}

/// No longer skips the hooks of a hash.
pub fn unskip(alloc: Global, chain: &mut ChainState, hash: &Hash256)
    ensures unskipped { chain.new ≡ skips.without_skip chain.old hash.now }
{
    remove_hash(alloc, &mut chain.skipped, hash);
}
