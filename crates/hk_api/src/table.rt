//! The rows from 27 to 64 of the table of calls, by groups.
ghost use Rattle.std.specs.Prelude.{◌≡◌};
ghost use Rattle.hk_calls.specs.Answers.{Gave, GaveUnless, changing};
ghost use Rattle.hk_calls.specs.Arguments.{pair_of};
ghost use Rattle.hk_calls.specs.Outputs.{outcome};
ghost use Rattle.hk_api_parts.specs.Emitting.{drawing};
ghost use Rattle.hk_api.specs.HostState.{with_write, with_chain, with_slots};
ghost use Rattle.hk_api.specs.Table as table;
ghost use Rattle.hk_api.specs.Table.{left, left_drawn};

use crate::Api;
use hk_api_parts::{
    etxn_burden, etxn_details, etxn_generation, etxn_nonce, etxn_reserve, fee_base, hook_account,
    hook_param_set, hook_pos, ledger_last_hash, ledger_last_time, ledger_nonce, ledger_seq,
    otxn_burden, otxn_field, otxn_generation, otxn_id, otxn_param, otxn_slot, otxn_type, slot,
    slot_clear, slot_count, slot_float, slot_size, slot_subarray, slot_subfield, slot_type,
};
use hk_calls::{Code, Refusal, narrow, pair_at};
use wa_num::Memory;

impl Api<'_> {
    /// Rows 27 to 64, by what they may change.
    #[tactic(auto, unfolding(crate::specs::Table::api_row))]
    pub(crate) fn api_row(
        &mut self,
        row: u8,
        a: &[u64],
        memory: &mut Memory,
    ) -> Result<i64, Refusal>
        ensures { GaveUnless (left memory.old self.old) (left memory.new self.new) result
            (table.api_row self.old row a.now memory.old) }
    {
        if is_chain_row(row) {
            return self.chain_row(row, a, memory);
        }
        if is_slot_row(row) {
            return self.slot_row(row, a, memory);
        }
        if is_state_row(row) {
            return self.state_row(row, a, memory);
        }
        if row == 58 {
            return etxn_reserve(&mut self.emitting, narrow(a, 0));
        }
        if is_drawing_row(row) {
            return self.drawing_row(row, a, memory);
        }
        if row == 63 {
            return self.etxn_fee_base(memory, pair_at(a, 0));
        }
        if row == 64 {
            return self.emit(memory, pair_at(a, 0), pair_at(a, 2));
        }
        Ok(self.asking_row(row, a, memory)?)
    }

    /// Rows that change nothing.
    #[tactic(auto, unfolding(crate::specs::Table::asking_row))]
    fn asking_row(&self, row: u8, a: &[u64], memory: &mut Memory) -> Result<i64, Code>
        ensures { Gave memory.old memory.new result
            (outcome a.now memory.old (table.asking_row self.now row a.now memory.old)) }
    {
        if is_setting_row(row) {
            return self.setting_row(row, a, memory);
        }
        if is_slot_asking_row(row) {
            return self.slot_asking_row(row, a, memory);
        }
        self.hook_row(row, a, memory)
    }

    /// Rows that ask for the setting.
    #[tactic(auto, unfolding(crate::specs::Table::setting_row))]
    fn setting_row(&self, row: u8, a: &[u64], memory: &mut Memory) -> Result<i64, Code>
        ensures { Gave memory.old memory.new result
            (outcome a.now memory.old (table.setting_row self.now row a.now memory.old)) }
    {
        match row {
            27 => fee_base(),
            28 => ledger_seq(self.setting),
            29 => ledger_last_time(self.setting),
            30 => ledger_last_hash(self.setting, memory, pair_at(a, 0)),
            38 => otxn_type(self.setting),
            39 => otxn_id(self.setting, memory, pair_at(a, 0)),
            40 => otxn_field(self.setting, memory, pair_at(a, 0), narrow(a, 2)),
            42 => otxn_param(self.setting, memory, pair_at(a, 0), pair_at(a, 2)),
            43 => otxn_burden(self.setting),
            _ => otxn_generation(self.setting),
        }
    }

    /// Rows that ask for slots.
    #[tactic(auto, unfolding(crate::specs::Table::slot_asking_row))]
    fn slot_asking_row(&self, row: u8, a: &[u64], memory: &mut Memory) -> Result<i64, Code>
        ensures { Gave memory.old memory.new result
            (outcome a.now memory.old (table.slot_asking_row self.now row a.now memory.old)) }
    {
        match row {
            45 => slot(&self.slots, memory, pair_at(a, 0), narrow(a, 2)),
            48 => slot_count(&self.slots, narrow(a, 0)),
            49 => slot_size(&self.slots, narrow(a, 0)),
            52 => slot_type(&self.slots, narrow(a, 0), narrow(a, 1)),
            _ => slot_float(&self.slots, narrow(a, 0)),
        }
    }

    /// Other rows that change nothing. A number that is no row's answers 0.
    #[tactic(auto, unfolding(crate::specs::Table::hook_row))]
    fn hook_row(&self, row: u8, a: &[u64], memory: &mut Memory) -> Result<i64, Code>
        ensures { Gave memory.old memory.new result
            (outcome a.now memory.old (table.hook_row self.now row a.now memory.old)) }
    {
        match row {
            32 => hook_account(&self.place, memory, pair_at(a, 0)),
            33 => self.hook_hash(memory, pair_at(a, 0), narrow(a, 2)),
            34 => hook_pos(&self.place),
            35 => self.hook_param(memory, pair_at(a, 0), pair_at(a, 2)),
            54 => self.state(memory, pair_at(a, 0), pair_at(a, 2)),
            56 => self.state_foreign(
                memory,
                pair_at(a, 0),
                pair_at(a, 2),
                pair_at(a, 4),
                pair_at(a, 6),
            ),
            59 => etxn_burden(self.setting, &self.emitting),
            60 => etxn_generation(self.setting),
            _ => Ok(0),
        }
    }

    /// Rows that change what is passed on.
    #[tactic(auto, unfolding(crate::specs::Table::chain_row))]
    fn chain_row(&mut self, row: u8, a: &[u64], memory: &Memory) -> Result<i64, Refusal>
        ensures { GaveUnless self.old self.new result
            (changing (with_chain self.old) (table.chain_row self.old row a.now memory.now)) }
    {
        match row {
            36 => hook_param_set(
                self.alloc,
                &mut self.chain,
                memory,
                pair_at(a, 0),
                pair_at(a, 2),
                pair_at(a, 4),
            ),
            _ => self.hook_skip(memory, pair_at(a, 0), narrow(a, 2)),
        }
    }

    /// Rows that change the slots.
    #[tactic(auto, unfolding(crate::specs::Table::slot_row))]
    fn slot_row(&mut self, row: u8, a: &[u64], memory: &Memory) -> Result<i64, Refusal>
        ensures { GaveUnless self.old self.new result
            (changing (with_slots self.old) (table.slot_row self.old row a.now memory.now)) }
    {
        match row {
            41 => otxn_slot(&mut self.slots, self.setting, narrow(a, 0)),
            46 => self.slot_set(memory, pair_at(a, 0), narrow(a, 2)),
            47 => Ok(slot_clear(&mut self.slots, narrow(a, 0))?),
            50 => Ok(slot_subfield(&mut self.slots, narrow(a, 0), narrow(a, 1), narrow(a, 2))?),
            _ => Ok(slot_subarray(&mut self.slots, narrow(a, 0), narrow(a, 1), narrow(a, 2))?),
        }
    }

    /// Rows that write state.
    #[tactic(auto, unfolding(crate::specs::Table::state_row))]
    fn state_row(&mut self, row: u8, a: &[u64], memory: &Memory) -> Result<i64, Refusal>
        ensures { GaveUnless self.old self.new result
            (changing (with_write self.old) (table.state_row self.old row a.now memory.now)) }
    {
        match row {
            55 => self.state_set(memory, pair_at(a, 0), pair_at(a, 2)),
            _ => self.state_foreign_set(
                memory,
                pair_at(a, 0),
                pair_at(a, 2),
                pair_at(a, 4),
                pair_at(a, 6),
            ),
        }
    }

    /// Rows that draw nonces.
    #[tactic(auto, unfolding(crate::specs::Table::drawing_row))]
    fn drawing_row(&mut self, row: u8, a: &[u64], memory: &mut Memory) -> Result<i64, Refusal>
        ensures { GaveUnless (left memory.old self.old) (left memory.new self.new) result
            (changing (left_drawn self.old)
            (drawing memory.old (pair_of a.now 0) (table.drawing_row self.old row a.now memory.old))) }
    {
        let write = pair_at(a, 0);
        let emitting = &mut self.emitting;
        match row {
            31 => ledger_nonce(self.setting, &self.place, emitting, memory, write),
            61 => etxn_nonce(self.setting, &self.place, emitting, memory, write),
            _ => etxn_details(self.setting, &self.place, emitting, memory, write),
        }
    }
}

#[tactic(auto, unfolding(crate::specs::Table::is_setting_row))]
fn is_setting_row(row: u8) -> bool
    ensures { result ≡ table.is_setting_row row }
{
    row <= 30 || (38 <= row && row <= 40) || (42 <= row && row <= 44)
}

#[tactic(auto, unfolding(crate::specs::Table::is_slot_asking_row))]
fn is_slot_asking_row(row: u8) -> bool
    ensures { result ≡ table.is_slot_asking_row row }
{
    row == 45 || row == 48 || row == 49 || row == 52 || row == 53
}

#[tactic(auto, unfolding(crate::specs::Table::is_chain_row))]
fn is_chain_row(row: u8) -> bool
    ensures { result ≡ table.is_chain_row row }
{
    row == 36 || row == 37
}

#[tactic(auto, unfolding(crate::specs::Table::is_slot_row))]
fn is_slot_row(row: u8) -> bool
    ensures { result ≡ table.is_slot_row row }
{
    row == 41 || row == 46 || row == 47 || row == 50 || row == 51
}

#[tactic(auto, unfolding(crate::specs::Table::is_state_row))]
fn is_state_row(row: u8) -> bool
    ensures { result ≡ table.is_state_row row }
{
    row == 55 || row == 57
}

#[tactic(auto, unfolding(crate::specs::Table::is_drawing_row))]
fn is_drawing_row(row: u8) -> bool
    ensures { result ≡ table.is_drawing_row row }
{
    row == 31 || row == 61 || row == 62
}
