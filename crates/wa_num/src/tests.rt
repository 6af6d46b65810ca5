ghost use Rattle.std.specs.Prelude.{◌≡◌, ℕ, List, Bool, false, pos, refl, IsFalse, IsOk};

use super::*;
use std::test::Fail;
use wa_ops::{CallNo, NoMemory};

/// A host whose every answer is its row.
#[derive(Drop)]
struct Rows {
    first: u64,
}

impl Host for Rows {
    ghost answer = { λ host row arguments memory. pos row };

    ghost memory_after = { λ host row arguments memory. memory };

    ghost state_after = { λ host row arguments memory. host };

    ghost may_want = { λ host. false };

    ghost keeps_length = { λ host row arguments memory. refl };

    fn call(
        &mut self,
        number: CallNo,
        _arguments: &[u64],
        _memory: &mut Memory,
    ) -> Result<i64, NoMemory> {
        Ok(i64::from(number.0))
    }
}

/// What any host answers in its row 64, which takes four numbers of 32 bits.
#[tactic(auto, unfolding(wa_ops::specs::Rows::row_parameters, wa_ops::specs::Rows::api_calls))]
fn ask<H: Host>(host: &mut H, memory: &mut Memory) -> Result<i64, NoMemory> {
    host.call(CallNo(64), &[1, 2, 3, 4], memory)
}

#[test]
fn a_host_is_called(rt: HostRuntime) -> Result<(), Fail> {
    let mut memory = Memory::new(rt.alloc(), 1)?;
    let mut rows = Rows { first: 3 };
    assert_eq!(rt; ask(&mut rows, &mut memory)?, 64);
    assert_eq!(rt; rows.first, 3);
    Ok(())
}
