//! All plain instructions.
ghost use Rattle.std.specs.Prelude.{◌<◌, length};
ghost use Rattle.wa_ops.specs.Soundness.{IsSoundOp};
ghost use Rattle.wa_run.specs.Acts.{ActsOr, Grows, IsPlain, Meets};

use crate::store::Store;
use hk_base::Trap;
use wa_ops::Op;

impl Store {
    /// An instruction on operands, variables and memory alone.
    #[inline(always)]
    pub(crate) fn act<S>(&mut self, op: &Op) -> Option<Trap>
        requires plain { IsPlain op.now }
        requires sound { IsSoundOp op.now }
        requires meets { Meets S op.now self.old }
        requires room { length self.old.words.items < self.old.words.room }
        ensures acts { ActsOr S op.now self.old result self.new }
        ensures grows { Grows self.old.words self.new.words }
    {
        match op {
            Op::Unreachable => Some(Trap::Unreachable),
            Op::Nop => None,
            Op::Drop => {
                self.discard::<S>();
                None
            }
            Op::Select => {
                self.select::<S>();
                None
            }
            Op::LocalGet(local) => {
                self.local_get::<S>(*local);
                None
            }
            Op::LocalSet(local) => {
                self.local_set::<S>(*local);
                None
            }
            Op::LocalTee(local) => {
                self.local_tee::<S>(*local);
                None
            }
            Op::GlobalGet(global) => {
                self.global_get::<S>(*global);
                None
            }
            Op::GlobalSet(global) => {
                self.global_set::<S>(*global);
                None
            }
            Op::Load { opcode, offset, .. } => self.load::<S>(*opcode, *offset),
            Op::Store { opcode, offset, .. } => self.write::<S>(*opcode, *offset),
            Op::MemorySize => {
                self.memory_size::<S>();
                None
            }
            Op::I32Const(number) => {
                self.constant32::<S>(*number);
                None
            }
            Op::I64Const(number) => {
                self.constant64::<S>(*number);
                None
            }
            Op::Number(opcode) => self.number::<S>(*opcode),
            _ => unreachable!(),
        }
    }
}
