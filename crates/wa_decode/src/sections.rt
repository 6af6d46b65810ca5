ghost use Rattle.std.specs.Prelude.{◌≡◌, [], length};
ghost use Rattle.std.specs.Option.{option_copied};
ghost use Rattle.wa_decode.specs.ModuleReading.{highest_at, part_at, section_at, sections_at, start_at};
ghost use Rattle.wa_decode.specs.Modules.{body_of};
ghost use Rattle.wa_decode.specs.Reading.{Gives, vector_at};
ghost use Rattle.wa_decode.specs.Views.{view, views};

use crate::fault::DecodeFault;
use crate::parts::start;
use crate::vectors::{Spelled, text, vector};
use std::alloc::Global;
use wa_ops::Items;

/// A section as it lies in the module's bytes.
#[derive(Clone, Copy)]
pub(crate) struct RawSection<'a> {
    id: u8,
    body: &'a [u8],
}

/// The sections, in order.
#[tactic(auto, unfolding(crate::specs::ModuleReading::sections_at))]
pub(crate) fn sections(alloc: Global, bytes: &[u8]) -> Result<Vec<RawSection<'_>>, DecodeFault>
    ensures { Gives (λ v. views v.items) result (sections_at (length bytes.now) bytes.now) }
{
    let mut sections = Vec::new(alloc);
    let mut rest = bytes;
    while !rest.is_empty() {
        let (section, after) = section(rest)?;
        sections.push(section)?;
        rest = after;
    }
    Ok(sections)
}

#[tactic(auto, unfolding(crate::specs::ModuleReading::section_at))]
fn section(bytes: &[u8]) -> Result<(RawSection<'_>, &[u8]), DecodeFault>
    ensures { Gives (λ x. (view x.0, x.1.now)) result (section_at bytes.now) }
{
    let [id, rest @ ..] = bytes else {
        return Err(DecodeFault::Malformed);
    };
    let (body, rest) = text(rest)?;
    Ok((RawSection { id: *id, body }, rest))
}

/// The highest id. Custom sections may stand anywhere, and hold a name; the others come in rising order.
#[tactic(auto, unfolding(crate::specs::ModuleReading::highest_at))]
pub(crate) fn highest(sections: &[RawSection<'_>]) -> Result<u8, DecodeFault>
    ensures { Gives (λ id. id) result (highest_at 0 (views sections.now)) }
{
    let mut last = 0;
    for section in sections {
        if section.id == 0 {
            text(section.body)?;
        } else if last < section.id && section.id <= 11 {
            last = section.id;
        } else {
            return Err(DecodeFault::Malformed);
        }
    }
    Ok(last)
}

/// The contents of the section with this id.
fn find<'a>(id: u8, sections: &[RawSection<'a>]) -> Option<&'a [u8]>
    ensures found { option_copied result ≡ body_of id (views sections.now) }
{
    for section in sections {
        if section.id == id {
            return Some(section.body);
        }
    }
    None
}

/// The vector that is all of a section; empty where there is no such section.
#[tactic(auto, unfolding(crate::specs::ModuleReading::part_at))]
pub(crate) fn part<R: Spelled>(
    alloc: Global,
    id: u8,
    sections: &[RawSection<'_>],
) -> Result<Items<R::Value>, DecodeFault>
    ensures { Gives (λ x. x) result (part_at id (vector_at R.at) [] (views sections.now)) }
{
    let Some(body) = find(id, sections) else {
        return Ok(Items::new(alloc));
    };
    let (items, rest) = vector::<R>(alloc, body)?;
    if !rest.is_empty() {
        return Err(DecodeFault::Malformed);
    }
    Ok(items)
}

/// The function that the start section names, if there is one.
#[tactic(auto, unfolding(crate::specs::ModuleReading::part_at))]
pub(crate) fn start_part(sections: &[RawSection<'_>]) -> Result<Option<u32>, DecodeFault>
    ensures { Gives (λ x. x) result (part_at 8 start_at None (views sections.now)) }
{
    let Some(body) = find(8, sections) else {
        return Ok(None);
    };
    let (index, rest) = start(body)?;
    if !rest.is_empty() {
        return Err(DecodeFault::Malformed);
    }
    Ok(index)
}
