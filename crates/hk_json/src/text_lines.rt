//! The lines of `unjson`: JSON texts, which show objects.
ghost use Rattle.std.specs.Prelude.{◌≡◌, ◌++◌, IfOk, OnOk};
ghost use Rattle.hk_json.specs.Turns as turns;
ghost use Rattle.hk_json.specs.Turns.{bytes_line, object_line, told_step};
ghost use Rattle.hk_lines.specs.OutputForms.{bytes_text};
ghost use Rattle.hk_loop.specs.Turned.{Did};
ghost use Rattle.xo_list.specs.Span.{items};
ghost use Rattle.xo_told.specs.Told.{told};

use crate::closing::closing;
use hk_base::{NoMemory, push_hex};
use hk_lines::Rule;
use hk_loop::{Command, Turned};
use std::alloc::{AllocError, Global};
use std::marker::Model;
use xo_json::{JsonFault, read_json};
use xo_list::Object;

/// The command `unjson`: each `json` line prints the object that its text shows.
#[derive(Drop)]
pub struct TextLines;

impl Model for TextLines {
    ghost use base.Stored.{coded_unit};

    ghost Value = { Unit {0} };

    ghost coded = { coded_unit };

    ghost view = { λ _. tt };
}

impl Command for TextLines {
    ghost use Rattle.hk_json.specs.Turns.{unjson_turn};

    ghost turn = { unjson_turn };

    fn line(&mut self, alloc: Global, line: &[u8], out: &mut Vec<u8>) -> Result<Turned, NoMemory> {
        if let Some(text) = line.strip_prefix(b"json ") {
            return read(alloc, text, out);
        }
        if line == b"json".as_slice() {
            return Ok(Turned::Wrong(Rule::BadShape));
        }
        closing(line, out)
    }
}

// What a text does.
fn read(alloc: Global, text: &[u8], out: &mut Vec<u8>) -> Result<Turned, NoMemory>
    ensures did { IfOk result (λ turned.
        Did (told_step (told text.now)) turned tt out.old.items out.new.items) }
{
    match read_json(alloc, text) {
        Ok(object) => {
            print_line(&object, out)?;
            Ok(Turned::Goes)
        }
        Err(fault) => {
            if fault == JsonFault::NoMemory {
                return Err(AllocError);
            }
            Ok(Turned::Wrong(rule_of(fault)))
        }
    }
}

// The rule that a text breaks; want of memory breaks none.
fn rule_of(fault: JsonFault) -> Rule
    ensures rule { result ≡ turns.json_rule fault }
{
    match fault {
        JsonFault::BadText | JsonFault::NoMemory => Rule::JsonText,
        JsonFault::BadKey => Rule::JsonKey,
        JsonFault::BadValue => Rule::JsonValue,
        JsonFault::TooDeep => Rule::JsonDeep,
    }
}

// Prints the line of an object's bytes.
fn print_line(object: &Object, out: &mut Vec<u8>) -> Result<(), NoMemory>
    ensures line { OnOk result (out.new.items ≡ out.old.items ++ object_line (items object.now)) }
{
    push_line(object.bytes(), out)
}

fn push_line(bytes: &[u8], out: &mut Vec<u8>) -> Result<(), NoMemory>
    ensures line { OnOk result (out.new.items ≡ out.old.items ++ bytes_line bytes.now) }
{
    out.extend_from_slice(b"obj ")?;
    push_bytes(bytes, out)?;
    out.extend_from_slice(b"\n")
}

// Appends bytes in hex, or a dash where there are none.
fn push_bytes(bytes: &[u8], out: &mut Vec<u8>) -> Result<(), NoMemory>
    ensures text { OnOk result (out.new.items ≡ out.old.items ++ bytes_text bytes.now) }
{
    if bytes.is_empty() {
        return out.extend_from_slice(b"-");
    }
    push_hex(out, bytes)
}
