//! What an execution reserves and draws, and the rows that do so.
ghost use Rattle.std.specs.Prelude.{◌≡◌, ◌<◌, ◌≤◌, ◌+◌, ◌-◌, ◌^◌, OnOk, OnErr};
ghost use Rattle.hk_calls.specs.Answers.{GaveUnless};
ghost use Rattle.hk_calls.specs.Outputs.{settled};
ghost use Rattle.hk_api_parts.specs.Emitting as rows;
ghost use Rattle.hk_api_parts.specs.Emitting.{drawing};
ghost use Rattle.hk_emit.specs.Details.{details_size};

use crate::chain_state::remove_hash;
use crate::place::Place;
use crate::setting::Setting;
use hk_base::{HalfHash, Hash256, Items, NoMemory};
use hk_calls::{Code, Pair, Refusal, inside, put_out, refuse};
use hk_emit::{EmitContext, burden, details, nonce};
use std::alloc::Global;
use wa_num::Memory;

/// Before what a nonce of the ledger is the hash of: `LNC` and a zero byte.
const NONCE_PREFIX: [u8; 4] = [0x4C, 0x4E, 0x43, 0x00];

/// The most nonces of one kind that an execution draws.
const MOST_NONCES: u32 = 255;

/// The most emissions that an execution reserves.
const MOST_RESERVED: u32 = 255;

/// What an execution has reserved, drawn and emitted.
#[derive(Debug, Drop)]
pub struct Emitting {
    /// The emissions that are reserved, 0 where none are.
    pub reserved: u32,
    /// The emissions of this execution.
    pub emitted: u32,
    /// The nonces that were drawn for emissions.
    pub drawn: u32,
    /// Those of them that no emission has used up.
    pub unused: Items<Hash256>,
    /// The nonces that were drawn of the ledger.
    pub ledger_drawn: u32,
}

/// The nonce of the ledger with this number.
#[tactic(auto, unfolding(crate::specs::Emitting::ledger_nonce_of))]
fn ledger_nonce_of(setting: &Setting, place: &Place, counter: u8) -> Hash256
    ensures { result ≡ rows.ledger_nonce_of setting.now place.now counter }
{
    let mut hash = HalfHash::new();
    hash.add(&NONCE_PREFIX);
    hash.add(&setting.header.last_hash.0);
    hash.add(&setting.transaction.id.0);
    hash.add(&place.account.0);
    hash.add(&[place.position, u8::from(place.callback), counter]);
    hash.finish()
}

/// The nonce for an emission with this number.
fn nonce_of(setting: &Setting, place: &Place, counter: u8) -> Hash256
    ensures { result ≡ rows.nonce_of setting.now place.now counter }
{
    nonce(
        &setting.transaction.id,
        &place.account,
        place.position,
        place.callback,
        counter,
    )
}

/// The burden of the execution's emissions.
pub fn own_burden(setting: &Setting, emitting: &Emitting) -> Result<u64, Code>
    ensures burden { result ≡ rows.own_burden setting.now emitting.now }
{
    refuse(emitting.reserved == 0, Code::PrerequisiteNotMet)?;
    burden(setting.transaction.burden, emitting.reserved).ok_or(Code::FeeTooLarge)
}

/// How many emissions lead to the execution's, themselves among them.
fn next_generation(setting: &Setting) -> u32
    ensures { result ≡ rows.next_generation setting.now }
{
    setting.transaction.generation.saturating_add(1)
}

/// What the execution's emissions have to say of it.
pub fn context_of(setting: &Setting, place: &Place, burden: u64) -> EmitContext
    ensures { result ≡ rows.context_of setting.now place.now burden }
{
    EmitContext {
        account: place.account,
        hash: place.hash,
        parent: setting.transaction.id,
        with_callback: place.has_cbak,
        seq: setting.header.seq,
        generation: next_generation(setting),
        burden,
    }
}

/// Row 31: draws a nonce of the ledger.
pub fn ledger_nonce(
    setting: &Setting,
    place: &Place,
    emitting: &mut Emitting,
    memory: &mut Memory,
    write: Pair,
) -> Result<i64, Refusal>
    ensures { GaveUnless (rows.both memory.old emitting.old) (rows.both memory.new emitting.new) result
        (drawing memory.old write (rows.ledger_nonce setting.now place.now emitting.old memory.old write)) }
{
    inside(memory, write)?;
    refuse(write.count < 32, Code::TooSmall)?;
    refuse(emitting.ledger_drawn >= MOST_NONCES, Code::TooManyNonces)?;
    let hash = ledger_nonce_of(setting, place, emitting.ledger_drawn as u8);
    emitting.ledger_drawn += 1;
    Ok(put_out(memory, write, &hash.0))
}

/// Row 58: reserves emissions, once.
pub fn etxn_reserve(emitting: &mut Emitting, count: u32) -> Result<i64, Refusal>
    ensures { GaveUnless emitting.old emitting.new result (rows.etxn_reserve emitting.old count) }
{
    refuse(count == 0, Code::TooSmall)?;
    refuse(count > MOST_RESERVED, Code::TooBig)?;
    refuse(emitting.reserved != 0, Code::AlreadySet)?;
    emitting.reserved = count;
    Ok(i64::from(count))
}

/// Row 59: the burden of the execution's emissions.
pub fn etxn_burden(setting: &Setting, emitting: &Emitting) -> Result<i64, Code>
    ensures { result ≡ rows.etxn_burden setting.now emitting.now }
{
    let burden = own_burden(setting, emitting)?;
    Ok(burden as i64)
}

/// Row 60: how many emissions lead to the execution's, themselves among them.
pub fn etxn_generation(setting: &Setting) -> Result<i64, Code>
    ensures { result ≡ rows.etxn_generation setting.now }
{
    Ok(i64::from(next_generation(setting)))
}

/// Draws a nonce for an emission.
fn draw(emitting: &mut Emitting, hash: Hash256) -> Result<(), NoMemory>
    requires few { emitting.old.drawn < 255 }
    ensures ok { OnOk result (emitting.new ≡ rows.with_nonce emitting.old hash) }
    ensures err { OnErr result (emitting.new ≡ emitting.old) }
{
    emitting.unused.push(hash)?;
    emitting.drawn += 1;
    Ok(())
}

/// Row 61: draws a nonce for an emission.
pub fn etxn_nonce(
    setting: &Setting,
    place: &Place,
    emitting: &mut Emitting,
    memory: &mut Memory,
    write: Pair,
) -> Result<i64, Refusal>
    ensures { GaveUnless (rows.both memory.old emitting.old) (rows.both memory.new emitting.new) result
        (drawing memory.old write (rows.etxn_nonce setting.now place.now emitting.old memory.old write)) }
{
    inside(memory, write)?;
    refuse(write.count < 32, Code::TooSmall)?;
    refuse(emitting.drawn >= MOST_NONCES, Code::TooManyNonces)?;
    let hash = nonce_of(setting, place, emitting.drawn as u8);
    draw(emitting, hash)?;
    Ok(put_out(memory, write, &hash.0))
}

/// Row 62: draws a nonce, and writes the details of an emission with it.
pub fn etxn_details(
    setting: &Setting,
    place: &Place,
    emitting: &mut Emitting,
    memory: &mut Memory,
    write: Pair,
) -> Result<i64, Refusal>
    ensures { GaveUnless (rows.both memory.old emitting.old) (rows.both memory.new emitting.new) result
        (drawing memory.old write (rows.etxn_details setting.now place.now emitting.old memory.old write)) }
{
    inside(memory, write)?;
    let burden = own_burden(setting, emitting)?;
    let context = context_of(setting, place, burden);
    refuse(write.count < details_size(&context), Code::TooSmall)?;
    refuse(emitting.drawn >= MOST_NONCES, Code::TooManyNonces)?;
    let hash = nonce_of(setting, place, emitting.drawn as u8);
    let (bytes, size) = details(&context, &hash);
    draw(emitting, hash)?;
    Ok(put_out(memory, write, &bytes[..size]))
}

/// The bytes of an emission's details.
fn details_size(context: &EmitContext) -> u32
    ensures { result ≡ details_size context.now }
{
    if context.with_callback { 138 } else { 116 }
}

/// Counts an emission, which uses up its nonce.
pub fn use_up(alloc: Global, emitting: &mut Emitting, nonce: &Hash256)
    requires few { emitting.old.emitted < 2 ^ 32 - 1 }
    ensures used { emitting.new ≡ rows.with_emitted emitting.old nonce.now }
{
    emitting.emitted += 1;
    remove_hash(alloc, &mut emitting.unused, nonce);
}
