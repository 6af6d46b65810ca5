//! The settlement of emissions, the least number that is due first.
ghost use Rattle.std.specs.Prelude.{◌≡◌, ◌↔◌, None, Ok, IfOk, IfSome, OnErr};
ghost use Rattle.hk_engine.specs.Engine.{engine_of};
ghost use Rattle.hk_events.specs.Laws.{DueAt};
ghost use Rattle.hk_events.specs.Settled as defined;
ghost use Rattle.hk_ledger.specs.Reports.{HoldsSettled, SettlesNext, SettledSo, event_of};
ghost use Rattle.hk_settle.specs.Due.{NoneFrom};

use crate::entering::enter_settled;
use crate::{Report, World};
use hk_base::{Items, NoMemory};
use hk_engine::{engines_careful, engines_lawful, engines_measured, stores_bounds};
use hk_lines::OutputLine;
use hk_perform::joined;
use hk_settle::{next_due, settle};
use hk_state::Transactor;
use std::alloc::Global;

/// Settles the emission under a number that is due.
fn settle_number<T: Transactor>(
    alloc: Global,
    world: &mut World,
    rules: &T,
    number: u64,
) -> Result<Report, NoMemory>
    requires due { DueAt world.old.ledger number }
    ensures ok { IfOk result (λ report. event_of world.new.ledger report
        ≡ defined.settled (engine_of T.rules) world.old.ledger number) }
    ensures opening { world.new.opening ≡ world.old.opening }
    ensures err { OnErr result (world.new ≡ world.old) }
{
    engines_lawful();
    engines_careful();
    engines_measured();
    stores_bounds();
    let settled = settle(alloc, &mut world.programs, &world.ledger, rules, number)?;
    enter_settled(&mut world.ledger, settled)
}

/// Settles the emission with the least number among those whose first ledger isn't after the open one: its transaction
/// under rules, or, where its last ledger has passed, nothing; and then the callback of the hook that emitted it. None
/// exactly where no emission is due.
///
/// # Errors
///
/// `NoMemory`, and then the world is as it was.
pub fn settle_next<T: Transactor>(
    alloc: Global,
    world: &mut World,
    rules: &T,
) -> Result<Option<Report>, NoMemory>
    ensures ok { IfOk result (SettlesNext (engine_of T.rules) world.old.ledger world.new.ledger) }
    ensures holds { IfOk result (λ found. IfSome found (λ report.
        HoldsSettled world.old.ledger (event_of world.new.ledger report))) }
    ensures none { IfOk result (λ found. (found ≡ None) ↔ NoneFrom world.old.ledger 0) }
    ensures free { NoneFrom world.old.ledger 0 → result ≡ Ok None }
    ensures opening { world.new.opening ≡ world.old.opening }
    ensures err { OnErr result (world.new ≡ world.old) }
{
    engines_lawful();
    match next_due(world.ledger(), 0) {
        None => Ok(None),
        Some(number) => {
            let report = settle_number(alloc, world, rules, number)?;
            Ok(Some(report))
        }
    }
}

/// Settles all emissions that are due, and adds their lines. After want of memory some may be settled.
pub fn settle_due<T: Transactor>(
    alloc: Global,
    world: &mut World,
    rules: &T,
    lines: Items<OutputLine>,
) -> Result<Items<OutputLine>, NoMemory>
    ensures ok { IfOk result (SettledSo (engine_of T.rules) world.old.ledger world.new.ledger lines) }
    ensures opening { world.new.opening ≡ world.old.opening }
{
    engines_lawful();
    let mut lines = lines;
    let mut from = 0;
    while let Some(number) = next_due(world.ledger(), from) {
        let report = settle_number(alloc, world, rules, number)?;
        lines = joined(lines, report.lines)?;
        from = number + 1;
    }
    Ok(lines)
}
