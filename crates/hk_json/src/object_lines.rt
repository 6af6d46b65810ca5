//! The lines of `json`: objects, which are shown as JSON.
ghost use Rattle.std.specs.Prelude.{◌≡◌, ◌++◌, map, IfOk, OnOk};
ghost use Rattle.std.specs.Option.{option_map};
ghost use Rattle.hk_json.specs.Turns.{bytes_of, bytes_step, object_step, text_line};
ghost use Rattle.hk_lines.specs.Words.{words_of};
ghost use Rattle.hk_loop.specs.Turned.{Did};
ghost use Rattle.hk_reading.specs.Parsing.{fields_of};
ghost use Rattle.xo_list.specs.Span.{items};

use crate::closing::closing;
use hk_base::{Items, NoMemory};
use hk_lines::{Rule, begins, read_bytes, split_words};
use hk_loop::{Command, Turned};
use std::alloc::{AllocError, Global};
use std::marker::Model;
use xo_json::print_json;
use xo_list::{Object, ObjectFault, one_reading, read_object};

/// The command `json`: each `obj` line prints the JSON text of its object.
#[derive(Drop)]
pub struct ObjectLines;

impl Model for ObjectLines {
    ghost use base.Stored.{coded_unit};

    ghost Value = { Unit {0} };

    ghost coded = { coded_unit };

    ghost view = { λ _. tt };
}

impl Command for ObjectLines {
    ghost use Rattle.hk_json.specs.Turns.{json_turn};

    ghost turn = { json_turn };

    fn line(&mut self, alloc: Global, line: &[u8], out: &mut Vec<u8>) -> Result<Turned, NoMemory> {
        if begins(line, b"obj", b"obj ") {
            return show(alloc, line, out);
        }
        closing(line, out)
    }
}

// What a line with an object does.
fn show(alloc: Global, line: &[u8], out: &mut Vec<u8>) -> Result<Turned, NoMemory>
    ensures did { IfOk result (λ turned.
        Did (bytes_step (bytes_of (words_of line.now))) turned tt out.old.items out.new.items) }
{
    let Some(bytes) = line_bytes(alloc, line)? else {
        return Ok(Turned::Wrong(Rule::BadShape));
    };
    show_bytes(alloc, bytes.as_slice(), out)
}

// The bytes of a line with an object.
fn line_bytes(alloc: Global, line: &[u8]) -> Result<Option<Items<u8>>, NoMemory>
    ensures bytes { IfOk result (λ found. found ≡ bytes_of (words_of line.now)) }
{
    let words = split_words(alloc, line)?;
    word_bytes(alloc, &words)
}

fn word_bytes(alloc: Global, words: &[&[u8]]) -> Result<Option<Items<u8>>, NoMemory>
    ensures bytes { IfOk result (λ found. found ≡ bytes_of (map (λ word. word.now) words.now)) }
{
    let [_, word] = words else {
        return Ok(None);
    };
    read_bytes(alloc, word)
}

// What the bytes of an object do.
fn show_bytes(alloc: Global, bytes: &[u8], out: &mut Vec<u8>) -> Result<Turned, NoMemory>
    ensures did { IfOk result (λ turned.
        Did (object_step (fields_of bytes.now)) turned tt out.old.items out.new.items) }
{
    let Some(object) = object_of(alloc, bytes)? else {
        return Ok(Turned::Wrong(Rule::Object));
    };
    print_line(&object, out)?;
    Ok(Turned::Goes)
}

// The object that bytes are, if they are one.
fn object_of(alloc: Global, bytes: &[u8]) -> Result<Option<Object>, NoMemory>
    ensures found { IfOk result (λ found. option_map items found ≡ fields_of bytes.now) }
{
    one_reading();
    match read_object(alloc, bytes) {
        Ok(object) => Ok(Some(object)),
        Err(fault) => match fault {
            ObjectFault::NoMemory => Err(AllocError),
            _ => Ok(None),
        },
    }
}

// Prints the line of an object's text.
fn print_line(object: &Object, out: &mut Vec<u8>) -> Result<(), NoMemory>
    ensures line { OnOk result (out.new.items ≡ out.old.items ++ text_line (items object.now)) }
{
    out.extend_from_slice(b"json ")?;
    print_json(out, object)?;
    out.extend_from_slice(b"\n")
}
