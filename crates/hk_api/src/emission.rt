//! Row 64: emissions.
ghost use Rattle.std.specs.Prelude.{◌≡◌, ◌+◌, ◌-◌, ◌*◌, ◌<◌, ◌≤◌, ◌^◌, nat_lt, nat_le, length, ok_or, [], IfOk, OnOk};
ghost use Rattle.std.specs.Prelude.{OnErr};
ghost use Rattle.hk_calls.specs.Answers.{GaveUnless, ShowsUnless};
ghost use Rattle.hk_calls.specs.declared.code.Code.TheVariants as code;
ghost use Rattle.hk_emit.specs.Accepted.{accepted};
ghost use Rattle.hk_state.specs.Fees.{needed_fee};
ghost use Rattle.hk_api.specs.HostState.{with_emission};
ghost use Rattle.hk_api.specs.Emissions as rows;
ghost use Rattle.hk_api.specs.Table.{left, issuing};

use crate::Api;
use hk_api_parts::{context_of, own_burden, use_up};
use hk_base::{Hash256, NoMemory};
use hk_calls::{Code, Pair, Refusal, inside, put_out, read, refuse};
use hk_emit::{Emission, EmitContext, EmitFault, accept_emission, accepted_reads};
use std::alloc::Global;
use wa_num::Memory;

/// The number that the emissions of a ledger don't reach.
const NUMBERS_END: u64 = (1 << 63) - 1;

/// The emission that a blob is.
fn accepted(
    alloc: Global,
    blob: &[u8],
    context: &EmitContext,
    nonces: &[Hash256],
) -> Result<Emission, Refusal>
    ensures emission { ShowsUnless (λ e. e) result
        (ok_or (accepted blob.now context.now nonces.now) code.EmissionFailure) }
    ensures hooks { IfOk result (λ e. e.transaction.hooks ≡ []) }
{
    accepted_reads();
    match accept_emission(alloc, blob, context, nonces) {
        Ok(emission) => Ok(emission),
        Err(EmitFault::NoMemory) => Err(Refusal::NoMemory),
        Err(_) => Err(Refusal::Code(Code::EmissionFailure)),
    }
}

impl Api<'_> {
    /// Whether an emission pays less than its burden asks for.
    fn is_underpaid(&self, emission: &Emission, burden: u64) -> bool
        requires hooks { emission.now.transaction.hooks ≡ [] }
        ensures { result ≡
            nat_lt emission.now.transaction.fee (needed_fee self.now.before emission.now.transaction * burden) }
    {
        u128::from(emission.transaction.fee) < self.burdened(&emission.transaction, burden)
    }

    /// Whether no number is left for another emission.
    fn is_full(&self) -> bool
        ensures { result ≡ nat_le (2 ^ 63 - 1) (self.now.next + length self.now.draft.emissions) }
    {
        let taken = u128::from(self.ledger.next_number()) + self.emissions.len() as u128;
        taken >= u128::from(NUMBERS_END)
    }

    /// Puts an emission behind those so far.
    fn issue(&mut self, emission: Emission) -> Result<(), NoMemory>
        requires few { self.old.emitting.emitted < 2 ^ 32 - 1 }
        ensures ok { OnOk result (self.new ≡ with_emission self.old emission) }
        ensures err { OnErr result (self.new ≡ self.old) }
    {
        let nonce = emission.nonce;
        self.emissions.push(emission)?;
        use_up(self.alloc, &mut self.emitting, &nonce);
        Ok(())
    }

    /// Row 64: emits a transaction, and writes its id.
    pub(crate) fn emit(
        &mut self,
        memory: &mut Memory,
        write: Pair,
        from: Pair,
    ) -> Result<i64, Refusal>
        ensures { GaveUnless (left memory.old self.old) (left memory.new self.new) result
            (issuing self.old memory.old write (rows.emit self.old memory.old write from)) }
    {
        inside(memory, write)?;
        let blob = read(memory, from)?;
        refuse(write.count < 32, Code::TooSmall)?;
        refuse(self.emitting.reserved == 0, Code::PrerequisiteNotMet)?;
        refuse(
            self.emitting.emitted >= self.emitting.reserved,
            Code::TooManyEmittedTxn,
        )?;
        let burden = own_burden(self.setting, &self.emitting)?;
        let context = context_of(self.setting, &self.place, burden);
        let emission = accepted(self.alloc, blob, &context, self.emitting.unused.as_slice())?;
        refuse(self.is_underpaid(&emission, burden), Code::EmissionFailure)?;
        refuse(self.is_full(), Code::EmissionFailure)?;
        let id = emission.transaction.id;
        self.issue(emission)?;
        Ok(put_out(memory, write, &id.0))
    }
}
