//! Loads from memory and stores to it.
ghost use Rattle.std.specs.Prelude.{ℕ, length, if◌then◌else◌, IsTrue, ◌<◌, ◌^◌, ◌≡◌, ◌≤◌};
ghost use Rattle.wa_machine.specs.Machine.{extended};
ghost use Rattle.wa_ops.specs.Accesses.{is_signed_load, load_type, load_width, store_width};
ghost use Rattle.wa_ops.specs.Opcodes.{is_load, is_store};
ghost use Rattle.wa_ops.specs.Soundness.{IsSoundOp};
ghost use Rattle.wa_ops.specs.declared.op.Op.{Op};
ghost use Rattle.wa_ops.specs.declared.op.ValueType.TheVariants.{I64};
ghost use Rattle.wa_run.specs.Acts.{ActsOr, Grows, Meets};

use crate::store::Store;
use hk_base::Trap;
use wa_ops::Op;

impl Store {
    /// A load; its alignment changes nothing.
    #[inline(never)]
    pub(crate) fn load<S>(&mut self, opcode: u8, offset: u32) -> Option<Trap>
        requires sound { IsSoundOp (Op.Load opcode 0 offset) }
        requires meets { (align : ℕ) × Meets S (Op.Load opcode align offset) self.old }
        requires room { length self.old.words.items ≤ self.old.words.room }
        ensures acts { (align : ℕ) → ActsOr S (Op.Load opcode align offset) self.old result self.new }
        ensures grows { Grows self.old.words self.new.words }
    {
        match opcode {
            0x28 => self.load_of::<S>(0x28, offset),
            0x29 => self.load_of::<S>(0x29, offset),
            0x2C => self.load_of::<S>(0x2C, offset),
            0x2D => self.load_of::<S>(0x2D, offset),
            0x2E => self.load_of::<S>(0x2E, offset),
            0x2F => self.load_of::<S>(0x2F, offset),
            0x30 => self.load_of::<S>(0x30, offset),
            0x31 => self.load_of::<S>(0x31, offset),
            0x32 => self.load_of::<S>(0x32, offset),
            0x33 => self.load_of::<S>(0x33, offset),
            0x34 => self.load_of::<S>(0x34, offset),
            0x35 => self.load_of::<S>(0x35, offset),
            _ => self.load_of::<S>(opcode, offset),
        }
    }

    /// A load; where its opcode is a literal, so is its width.
    #[inline(always)]
    fn load_of<S>(&mut self, opcode: u8, offset: u32) -> Option<Trap>
        requires sound { IsSoundOp (Op.Load opcode 0 offset) }
        requires meets { (align : ℕ) × Meets S (Op.Load opcode align offset) self.old }
        requires room { length self.old.words.items ≤ self.old.words.room }
        ensures acts { (align : ℕ) → ActsOr S (Op.Load opcode align offset) self.old result self.new }
        ensures grows { Grows self.old.words self.new.words }
    {
        let address = self.words.pop() as u32;
        match self.memory.load(address, offset, load_width(opcode)) {
            Some(number) => {
                self.words.push(read_as(opcode, number));
                None
            }
            None => Some(Trap::Memory),
        }
    }

    /// A store; its alignment changes nothing.
    #[inline(never)]
    pub(crate) fn write<S>(&mut self, opcode: u8, offset: u32) -> Option<Trap>
        requires sound { IsSoundOp (Op.Store opcode 0 offset) }
        requires meets { (align : ℕ) × Meets S (Op.Store opcode align offset) self.old }
        ensures acts { (align : ℕ) → ActsOr S (Op.Store opcode align offset) self.old result self.new }
        ensures grows { Grows self.old.words self.new.words }
    {
        match opcode {
            0x36 => self.write_of::<S>(0x36, offset),
            0x37 => self.write_of::<S>(0x37, offset),
            0x3A => self.write_of::<S>(0x3A, offset),
            0x3B => self.write_of::<S>(0x3B, offset),
            0x3C => self.write_of::<S>(0x3C, offset),
            0x3D => self.write_of::<S>(0x3D, offset),
            0x3E => self.write_of::<S>(0x3E, offset),
            _ => self.write_of::<S>(opcode, offset),
        }
    }

    /// A store; where its opcode is a literal, so is its width.
    #[inline(always)]
    fn write_of<S>(&mut self, opcode: u8, offset: u32) -> Option<Trap>
        requires sound { IsSoundOp (Op.Store opcode 0 offset) }
        requires meets { (align : ℕ) × Meets S (Op.Store opcode align offset) self.old }
        ensures acts { (align : ℕ) → ActsOr S (Op.Store opcode align offset) self.old result self.new }
        ensures grows { Grows self.old.words self.new.words }
    {
        let word = self.words.pop();
        let address = self.words.pop() as u32;
        if self
            .memory
            .store(address, offset, store_width(opcode), word)
        {
            None
        } else {
            Some(Trap::Memory)
        }
    }
}

/// What a load makes of the number in memory: the narrow ones that are signed repeat its sign.
#[inline(always)]
fn read_as(opcode: u8, number: u64) -> u64
    requires sound { IsTrue (is_load opcode) }
    requires width { number < 256 ^ load_width opcode }
    ensures number { result
        ≡ (if is_signed_load opcode then extended (load_width opcode) (load_type opcode) number else number) }
    ensures fits { (load_type opcode ≡ I64 → ⊥) → result < 2 ^ 32 }
{
    match opcode {
        0x2C => u64::from(i32::from((number as u8).cast_signed()).cast_unsigned()),
        0x2E => u64::from(i32::from((number as u16).cast_signed()).cast_unsigned()),
        0x30 => i64::from((number as u8).cast_signed()).cast_unsigned(),
        0x32 => i64::from((number as u16).cast_signed()).cast_unsigned(),
        0x34 => i64::from((number as u32).cast_signed()).cast_unsigned(),
        _ => number,
    }
}

/// The bytes that a load reads.
#[inline(always)]
fn load_width(opcode: u8) -> u32
    ensures width { result ≡ load_width opcode }
{
    match opcode {
        0x29 => 8,
        0x2C | 0x2D | 0x30 | 0x31 => 1,
        0x2E | 0x2F | 0x32 | 0x33 => 2,
        _ => 4,
    }
}

/// The bytes that a store writes.
#[inline(always)]
fn store_width(opcode: u8) -> u32
    ensures width { result ≡ store_width opcode }
{
    match opcode {
        0x37 => 8,
        0x3A | 0x3C => 1,
        0x3B | 0x3D => 2,
        _ => 4,
    }
}
