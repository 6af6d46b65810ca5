ghost use Rattle.std.specs.Prelude.{◌≡◌, ◌+◌, ◌-◌, ◌++◌, ◌*◌, ◌<◌, ◌^◌, ◌≤◌, ◌↔◌, IfOk, IsTrue, MatchOption, drop};
ghost use Rattle.std.specs.Prelude.{length, replicate, take};
ghost use Rattle.wa_num.specs.Memory.{cells, is_width, little, loaded, written};

use std::alloc::Global;
use std::marker::Model;
use wa_ops::NoMemory;

/// The size of a page of linear memory, in bytes.
const PAGE: usize = 65_536;

/// The linear memory of an instance (Core 1.0, "Memory Instances"): its bytes, in order.
#[derive(Debug, Drop)]
pub struct Memory {
    bytes: Vec<u8>,
}

impl Model for Memory {
    ghost use Rattle.std.specs.Coded.{coded_list, coded_ℕ};
    ghost use Rattle.std.specs.Prelude.{List, ℕ};

    ghost Value = { List ℕ };

    ghost coded = { coded_list coded_ℕ };

    ghost view = { λ m. m.bytes.items };
}

impl Memory {
    /// A memory of so many pages, all zeros.
    pub fn new(alloc: Global, pages: u32) -> Result<Memory, NoMemory>
        requires pages { pages ≤ 16 }
        ensures zeros { IfOk result (λ m. m ≡ replicate (pages * 65536) 0) }
    {
        let bytes = vec![in alloc; 0; pages as usize * PAGE]?;
        Ok(Memory { bytes })
    }

    /// How many bytes there are.
    #[inline(always)]
    pub fn len(&self) -> usize
        ensures length { result ≡ length self.now }
    {
        self.bytes.len()
    }

    /// The number in the `width` bytes at `address + offset`, the lowest byte first; `None` where they pass the end.
    #[inline(always)]
    pub fn load(&self, address: u32, offset: u32, width: u32) -> Option<u64>
        requires width { IsTrue (is_width width) }
        ensures number { result ≡ loaded self.now (address + offset) width }
        ensures fits { MatchOption result (Unit {0}) (λ n. n < 256 ^ width) }
    {
        let start = address as usize + offset as usize;
        let end = start + width as usize;
        if self.bytes.len() < end {
            return None;
        }
        Some(number_of(&self.bytes[start..end]))
    }

    /// Puts the low `width` bytes of `value` at `address + offset`, the lowest first.
    ///
    /// `false` where they pass the end; the memory is then as it was.
    #[inline(always)]
    pub fn store(&mut self, address: u32, offset: u32, width: u32, value: u64) -> bool
        requires width { IsTrue (is_width width) }
        ensures fits { IsTrue result ↔ (address + offset + width ≤ length self.old) }
        ensures memory { self.new ≡ written self.old (address + offset) (cells width value) }
    {
        let whole = value.to_le_bytes();
        let start = address as usize + offset as usize;
        let end = start + width as usize;
        if self.bytes.len() < end {
            return false;
        }
        self.bytes[start..end].copy_from_slice(&whole[..width as usize]);
        true
    }

    /// The `count` bytes at `at`; `None` where they pass the end.
    pub fn read(&self, at: u32, count: u32) -> Option<&[u8]>
        ensures bytes { MatchOption result (length self.now < at + count)
            (λ bytes. (at + count ≤ length self.now) × (bytes.now ≡ take count (drop at self.now))) }
    {
        let start = at as usize;
        let end = start + count as usize;
        if self.bytes.len() < end {
            return None;
        }
        Some(&self.bytes[start..end])
    }

    /// Puts `bytes` at `at`. `false` where they pass the end; the memory is then as it was.
    pub fn write(&mut self, at: u32, bytes: &[u8]) -> bool
        ensures fits { IsTrue result ↔ (at + length bytes.now ≤ length self.old) }
        ensures memory { self.new ≡ written self.old at bytes.now }
    {
        let start = at as usize;
        let end = start + bytes.len();
        if self.bytes.len() < end {
            return false;
        }
        self.bytes[start..end].copy_from_slice(bytes);
        true
    }
}

/// The number that up to 8 bytes spell, the lowest first.
#[inline(always)]
fn number_of(bytes: &[u8]) -> u64
    requires width { length bytes.now ≤ 8 }
    ensures number { result ≡ little bytes.now }
    ensures fits { result < 256 ^ length bytes.now }
{
    u64::from_le_bytes(widened(bytes))
}

/// The bytes with zeros behind them.
#[inline(always)]
fn widened(bytes: &[u8]) -> [u8; 8]
    requires width { length bytes.now ≤ 8 }
    ensures bytes { result ≡ bytes.now ++ replicate (8 - length bytes.now) 0 }
{
    let mut whole = [0; 8];
    whole[..bytes.len()].copy_from_slice(bytes);
    whole
}
