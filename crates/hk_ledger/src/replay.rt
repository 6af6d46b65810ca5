//! A replay of a ledger, line by line.
ghost use Rattle.std.specs.Prelude.{◌≡◌, ◌≤◌, ◌++◌, IfOk};
ghost use Rattle.hk_ledger.specs.Machine.{start, Steps, account_step, ledger_step, tx_step, tx_line, step};
ghost use Rattle.hk_final.specs.Final.{final_lines};
ghost use Rattle.hk_ledger.specs.Machine.{ends, IsInRange};
ghost use Rattle.hk_ledger.specs.World.{most_drops};

use crate::{OpenFault, Report, World, apply, open_account, open_ledger, settle_due};
use hk_base::{AccountId, Hash256, Items, NoMemory};
use hk_lines::{InputLine, OutputLine, Rule, Verdict};
use hk_state::Transactor;
use std::alloc::{AllocError, Global};
use std::marker::Model;

/// What a line did.
#[derive(Debug, Drop)]
pub enum Stepped {
    /// The replay goes on, and these lines are printed.
    Goes(Items<OutputLine>),
    /// The replay ends, and these lines are printed.
    Ends(Items<OutputLine>),
    /// The line breaks a rule.
    Breaks(Rule),
}

/// A replay: a ledger, and how many transactions came before.
#[derive(Drop)]
pub struct Replay {
    world: World,
    count: u64,
}

impl Model for Replay {
    ghost use Rattle.hk_ledger.specs.Machine.{State, coded_state};

    ghost Value = { State };

    ghost coded = { coded_state };

    ghost view = { λ r. record { ledger = r.world.ledger; count = r.count } };
}

impl Replay {
    /// A replay of no lines. It takes no memory.
    pub fn new(alloc: Global) -> Replay
        ensures start { result ≡ start }
    {
        Replay {
            world: World::new(alloc),
            count: 0,
        }
    }

    // A line that opens an account.
    fn account(
        &mut self,
        alloc: Global,
        id: &AccountId,
        balance: u64,
        sequence: u32,
    ) -> Result<Stepped, NoMemory>
        requires most { balance ≤ most_drops }
        ensures ok { IfOk result (λ stepped.
            Steps (account_step self.old id.now balance sequence) self.new stepped) }
    {
        if self.world.ledger().header().seq > 0 {
            return Ok(Stepped::Breaks(Rule::BadOrder));
        }
        match open_account(&mut self.world, id, balance, sequence) {
            Ok(()) => return Ok(Stepped::Goes(Items::new(alloc))),
            Err(OpenFault::Repeated) => return Ok(Stepped::Breaks(Rule::RepeatedAccount)),
            Err(OpenFault::Total) => return Ok(Stepped::Breaks(Rule::Total)),
            Err(OpenFault::NoMemory) => return Err(AllocError),
        }
    }

    // A line that opens a ledger: the emissions that are due then are settled.
    fn ledger<T: Transactor>(
        &mut self,
        alloc: Global,
        rules: &T,
        seq: u32,
        time: u32,
        last_hash: &Hash256,
    ) -> Result<Stepped, NoMemory>
        ensures ok { IfOk result (λ stepped.
            Steps (ledger_step T.rules self.old seq time last_hash.now) self.new stepped) }
    {
        if seq <= self.world.ledger().header().seq {
            return Ok(Stepped::Breaks(Rule::BadOrder));
        }
        let mut lines = Items::new(alloc);
        lines.push(OutputLine::Ledger { seq })?;
        open_ledger(&mut self.world, seq, time, last_hash);
        let lines = settle_due(alloc, &mut self.world, rules, lines)?;
        Ok(Stepped::Goes(lines))
    }

    // A line with a transaction, by the verdict on its signature and by its bytes. No input has so many of them that
    // their number isn't a number of 64 bits.
    fn transaction<T: Transactor>(
        &mut self,
        alloc: Global,
        rules: &T,
        verdict: Verdict,
        blob: &[u8],
    ) -> Result<Stepped, NoMemory>
        ensures ok { IfOk result (λ stepped. Steps (tx_step T.rules self.old verdict blob.now) self.new stepped) }
    {
        if self.count == u64::MAX {
            return Err(AllocError);
        }
        if self.world.ledger().header().seq == 0 {
            return Ok(Stepped::Breaks(Rule::BadOrder));
        }
        let report = apply(alloc, &mut self.world, rules, verdict, blob)?;
        self.count += 1;
        Ok(Stepped::Goes(tx_lines(alloc, self.count, report)?))
    }

    // The last line.
    fn end(&self, alloc: Global) -> Result<Stepped, NoMemory>
        ensures ok { IfOk result (λ stepped. Steps (ends (final_lines self.now.ledger)) self.now stepped) }
    {
        Ok(Stepped::Ends(self.world.final_lines(alloc)?))
    }

    /// A line of the input. After want of memory nothing is known of the replay.
    pub fn line<T: Transactor>(
        &mut self,
        alloc: Global,
        rules: &T,
        line: &InputLine,
    ) -> Result<Stepped, NoMemory>
        requires range { IsInRange line.now }
        ensures ok { IfOk result (λ stepped. Steps (step T.rules self.old line.now) self.new stepped) }
    {
        match line {
            InputLine::Account {
                id,
                balance,
                sequence,
            } => self.account(alloc, id, *balance, *sequence),
            InputLine::Ledger {
                seq,
                time,
                last_hash,
            } => self.ledger(alloc, rules, *seq, *time, last_hash),
            InputLine::Tx { verdict, blob } => self.transaction(
                alloc,
                rules,
                *verdict,
                blob.as_slice(),
            ),
            InputLine::Hook { .. } => Ok(Stepped::Breaks(Rule::BadWord)),
            InputLine::End => self.end(alloc),
        }
    }
}

/// The line of a transaction with this number, and those that follow.
fn tx_lines(alloc: Global, number: u64, report: Report) -> Result<Items<OutputLine>, NoMemory>
    ensures lines { IfOk result (λ lines. lines ≡ tx_line number report.result report.fee ++ report.lines) }
{
    let Report { result, fee, lines } = report;
    let mut shown = Vec::new(alloc);
    if let Some(result) = result {
        shown.push(OutputLine::Tx {
            number,
            result,
            fee,
        })?;
    }
    let mut more = lines.into_vec();
    shown.append(&mut more)?;
    Ok(Items::from_vec(shown))
}
