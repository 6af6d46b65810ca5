//! The rows as calls of a host.
ghost use Rattle.std.specs.Prelude.{true};
ghost use Rattle.hk_api.specs.Table.{answers};
ghost use Rattle.hk_api.specs.Ends.{answers_length};

use crate::Api;
use hk_calls::Refusal;
use std::alloc::AllocError;
use wa_num::{Host, Memory};
use wa_ops::{CallNo, NoMemory};

impl<'a> Host for Api<'a> {
    ghost answer = { λ h row arguments memory. (answers h row arguments memory).answer };

    ghost memory_after = { λ h row arguments memory. (answers h row arguments memory).memory };

    ghost state_after = { λ h row arguments memory. (answers h row arguments memory).after };

    ghost may_want = { λ _. true };

    ghost keeps_length = { answers_length };

    #[tactic(auto, unfolding(crate::specs::Table::answers))]
    fn call(
        &mut self,
        number: CallNo,
        arguments: &[u64],
        memory: &mut Memory,
    ) -> Result<i64, NoMemory> {
        if number.0 < 27 {
            return Ok(0);
        }
        match self.api_row(number.0, arguments, memory) {
            Ok(answer) => Ok(answer),
            Err(Refusal::Code(code)) => Ok(code.number()),
            Err(Refusal::NoMemory) => Err(AllocError),
        }
    }
}
