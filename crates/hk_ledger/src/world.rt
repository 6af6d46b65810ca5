//! A ledger under change, and the total that its accounts were opened with.
ghost use Rattle.std.specs.Prelude.{◌≡◌, ◌+◌, ◌<◌, ◌≤◌, ◌^◌, ◌↔◌, ℕ, None, Err, IfOk, IsSome, OnErr, OnOk};
ghost use Rattle.hk_state.specs.Holdings.{holding_at};
ghost use Rattle.hk_state.specs.Ledger.{with_header};
ghost use Rattle.hk_final.specs.Final.{final_lines};
ghost use Rattle.hk_ledger.specs.Replays.{AddsUp};
ghost use Rattle.hk_ledger.specs.World.{IsWhole, new_world, opened, with_account, most_drops};

use hk_base::{AccountId, Hash256, Items, NoMemory};
use hk_chain::Programs;
use hk_final::final_lines;
use hk_lines::OutputLine;
use hk_state::{Header, Holding, Ledger, Overlay};
use std::alloc::Global;
use std::marker::Model;
use thiserror::Error;

/// The most drops that all accounts of a ledger are opened with.
const MOST_DROPS: u64 = 100_000_000_000_000_000;

/// Why an account isn't opened.
#[derive(Clone, Copy, Debug, PartialEq, Eq, Error)]
pub enum OpenFault {
    /// The ledger has an account of this id.
    #[error("account repeated")]
    Repeated,
    /// The balances of all accounts would pass 100,000,000,000,000,000 drops.
    #[error("total too large")]
    Total,
    #[error("no memory")]
    NoMemory,
}

/// A ledger whose balances and burnt fees add up to the balances that its accounts were opened with, and whose hooks
/// and queued emissions are whole.
#[derive(Drop)]
pub struct World {
    pub(crate) ledger: Ledger,
    // The checked hooks of the ledger's Definitions, each once it was needed.
    pub(crate) programs: Programs,
    opening: u64,
    alloc: Global,
}

impl Model for World {
    ghost use Rattle.hk_chain.specs.Programs.{AreOf};
    ghost use Rattle.hk_ledger.specs.World.{WorldValue, coded_world, IsWhole};

    ghost Value = { WorldValue };

    ghost coded = { coded_world };

    ghost view = { λ w. record { ledger = w.ledger; opening = w.opening } };

    ghost invariant = { λ w. IsWhole w.ledger w.opening × AreOf w.ledger.entries w.programs };
}

impl World {
    /// An empty ledger. It takes no memory.
    pub fn new(alloc: Global) -> World
        ensures new { result ≡ new_world }
    {
        World {
            ledger: Ledger::new(alloc),
            programs: Programs::new(alloc),
            opening: 0,
            alloc,
        }
    }

    pub fn ledger(&self) -> &Ledger
        ensures ledger { result.now ≡ self.now.ledger }
        ensures whole { IsWhole self.now.ledger self.now.opening }
    {
        &self.ledger
    }

    /// The lines at the end: each account, Install, State entry and queued emission, and the sums of the balances and
    /// of the burnt fees.
    pub fn final_lines(&self, alloc: Global) -> Result<Items<OutputLine>, NoMemory>
        ensures lines { IfOk result (λ lines. lines ≡ final_lines self.now.ledger) }
        ensures total { IfOk result (λ lines. AddsUp self.now.opening lines) }
    {
        let burnt = self.ledger.burnt();
        final_lines(alloc, &self.ledger, self.opening - burnt)
    }
}

/// Opens an account with a balance in drops, and the sequence of its first transaction.
///
/// After a refusal the world is as it was.
pub fn open_account(
    world: &mut World,
    id: &AccountId,
    balance: u64,
    sequence: u32,
) -> Result<(), OpenFault>
    requires most { balance ≤ most_drops }
    ensures ok { OnOk result (world.new ≡ opened world.old id.now balance sequence) }
    ensures err { OnErr result (world.new ≡ world.old) }
    ensures repeated { (result ≡ Err OpenFault.Repeated) ↔ IsSome (holding_at world.old.ledger.entries id.now) }
    ensures total { (result ≡ Err OpenFault.Total)
        ↔ ((holding_at world.old.ledger.entries id.now ≡ None) × (most_drops < world.old.opening + balance)) }
{
    if world.ledger.holding(id).is_some() {
        return Err(OpenFault::Repeated);
    }
    let opening = world.opening + balance;
    if opening > MOST_DROPS {
        return Err(OpenFault::Total);
    }
    match open(
        world.alloc,
        &mut world.ledger,
        id,
        Holding { balance, sequence },
    ) {
        Ok(()) => {
            world.opening = opening;
            Ok(())
        }
        Err(_) => Err(OpenFault::NoMemory),
    }
}

// Sets an account's balance and sequence. A refused call changes nothing.
fn open(
    alloc: Global,
    ledger: &mut Ledger,
    id: &AccountId,
    holding: Holding,
) -> Result<(), NoMemory>
    requires next { ledger.old.next < 2 ^ 64 }
    requires burnt { ledger.old.burnt < 2 ^ 64 }
    ensures ok { OnOk result (ledger.new ≡ with_account ledger.old id.now holding.balance holding.sequence) }
    ensures err { OnErr result (ledger.new ≡ ledger.old) }
{
    let mut overlay = Overlay::new(alloc);
    overlay.put_holding(id, holding)?;
    ledger.commit(overlay, 0, 0)
}

/// Opens a ledger: sets the header, and changes nothing else. It takes no memory.
pub fn open_ledger(world: &mut World, seq: u32, time: u32, last_hash: &Hash256)
    ensures opened { world.new ≡ record world.old {
      ledger = with_header world.old.ledger (record { seq = seq; time = time; last_hash = last_hash.now });
    } }
{
    let header = Header {
        seq,
        time,
        last_hash: *last_hash,
    };
    world.ledger.set_header(header);
}
