//! Transactions that are handed in.
ghost use Rattle.std.specs.Prelude.{◌≡◌, ◌<◌, length, IfOk, IsOk, OnErr};
ghost use Rattle.hk_engine.specs.Engine.{engine_of};
ghost use Rattle.hk_events.specs.Events.{applied};
ghost use Rattle.hk_ledger.specs.Reports.{event_of, HoldsFor};
ghost use Rattle.hk_reading.specs.Readings.{Reads, longest};

use crate::entering::enter;
use crate::{Report, World};
use hk_api::Setting;
use hk_base::NoMemory;
use hk_engine::{engines_careful, engines_lawful, engines_measured, stores_bounds};
use hk_lines::{ResultName, Verdict};
use hk_perform::{Origin, perform};
use hk_reading::{Reading, read};
use hk_state::Transactor;
use std::alloc::Global;

/// Applies a transaction, by its bytes, under rules and with a verdict on its signature.
///
/// Bytes that are too long want no memory.
///
/// # Errors
///
/// `NoMemory`, and then the world is as it was.
pub fn apply<T: Transactor>(
    alloc: Global,
    world: &mut World,
    rules: &T,
    verdict: Verdict,
    blob: &[u8],
) -> Result<Report, NoMemory>
    ensures ok { IfOk result (λ report. event_of world.new.ledger report
        ≡ applied (engine_of T.rules) world.old.ledger verdict blob.now) }
    ensures holds { IfOk result (λ report. HoldsFor blob.now world.old.ledger (event_of world.new.ledger report)) }
    ensures opening { world.new.opening ≡ world.old.opening }
    ensures err { OnErr result (world.new ≡ world.old) }
    ensures too_long { longest < length blob.now → IsOk result }
{
    engines_lawful();
    let header = world.ledger().header();
    match read(alloc, blob)? {
        Reading::TooLong => Ok(Report::refused(alloc, ResultName::TooLong)),
        Reading::Unparsed => Ok(Report::refused(alloc, ResultName::Unparsed)),
        Reading::Malformed => Ok(Report::refused(alloc, ResultName::Malformed)),
        Reading::Transaction(transaction) => {
            let setting = Setting {
                transaction,
                header,
            };
            apply_read(alloc, world, rules, verdict, setting)
        }
    }
}

/// Applies the transaction of a setting.
fn apply_read<T: Transactor>(
    alloc: Global,
    world: &mut World,
    rules: &T,
    verdict: Verdict,
    setting: Setting,
) -> Result<Report, NoMemory>
    requires header { setting.header ≡ world.old.ledger.header }
    requires read { Reads setting.transaction.blob (Reading.Transaction setting.transaction) }
    ensures ok { IfOk result (λ report. event_of world.new.ledger report
        ≡ applied (engine_of T.rules) world.old.ledger verdict setting.transaction.blob) }
    ensures opening { world.new.opening ≡ world.old.opening }
    ensures err { OnErr result (world.new ≡ world.old) }
{
    engines_lawful();
    engines_careful();
    engines_measured();
    stores_bounds();
    let origin = Origin::Handed(verdict);
    let performed = perform(
        alloc,
        &mut world.programs,
        &world.ledger,
        rules,
        origin,
        &setting,
    )?;
    enter(&mut world.ledger, performed)
}
