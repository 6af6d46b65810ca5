//! Numbers in LEB128.
ghost use Rattle.std.specs.Prelude.{◌≡◌, ◌++◌, OnOk};
ghost use Rattle.wa_encode.specs.Numbers.{number, signed};

use wa_ops::NoMemory;

/// Appends an unsigned number in as few bytes as can be.
pub(crate) fn unsigned(value: u64, out: &mut Vec<u8>) -> Result<(), NoMemory>
    ensures bytes { OnOk result (out.new.items ≡ out.old.items ++ number value) }
{
    let mut rest = value;
    while rest >= 128 {
        out.push(128 + (rest % 128) as u8)?;
        rest /= 128;
    }
    out.push(rest as u8)?;
    Ok(())
}

/// Appends an index, a label or another number of 32 bits.
pub(crate) fn word(value: u32, out: &mut Vec<u8>) -> Result<(), NoMemory>
    ensures bytes { OnOk result (out.new.items ≡ out.old.items ++ number value) }
{
    unsigned(u64::from(value), out)
}

/// Appends a signed number in as few bytes as can be.
pub(crate) fn signed(value: i64, out: &mut Vec<u8>) -> Result<(), NoMemory>
    ensures bytes { OnOk result (out.new.items ≡ out.old.items ++ signed value) }
{
    let mut rest = value;
    while rest < -64 || 64 <= rest {
        out.push(128 + rest.rem_euclid(128) as u8)?;
        rest = rest.div_euclid(128);
    }
    out.push(rest.rem_euclid(128) as u8)?;
    Ok(())
}
