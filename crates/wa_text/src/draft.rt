//! What lines of text make.
ghost use Rattle.std.specs.Prelude.{◌≡◌, ◌≤◌, ◌<◌, ◌^◌, [], ◌∷◌, IfOk, length};
ghost use Rattle.wa_decode.specs.CodeReading.{opened};
ghost use Rattle.wa_ops.specs.Rows.{row_named};
ghost use Rattle.wa_text.specs.Draft as drafts;
ghost use Rattle.wa_text.specs.Draft.{Turned};
ghost use Rattle.wa_text.specs.Numbers.{signed_word};

use crate::fault::AsmRule;
use crate::regions::Regions;
use crate::text_line::{Constant, TextLine};
use std::alloc::Global;
use wa_ops::{
    CallNo, Code, FuncType, Import, ImportItem, Items, Limits, Module, ModuleExport, ModuleGlobal,
    NoMemory, Op, Segment, ValueType, call_answer, call_by_name, call_parameters,
};

/// The kinds of lines that came, by the last of them.
#[derive(Clone, Copy, Debug, PartialEq, Eq)]
pub enum Part {
    Imports,
    Memory,
    Globals,
    Data,
    Functions,
}

/// A function that is open.
#[derive(Drop)]
pub struct Body {
    pub locals: Items<(u32, ValueType)>,
    pub ops: Items<Op>,
    pub regions: Regions,
}

/// The module of the lines so far.
#[derive(Drop)]
pub struct Draft {
    pub part: Part,
    pub module: Module,
    pub body: Option<Body>,
}

/// What a line did: the text goes on, its module is whole, or the line is wrong.
#[derive(Clone, Copy, Debug, PartialEq, Eq)]
pub enum Turn {
    Goes,
    Ends,
    Wrong(AsmRule),
}

impl Draft {
    /// The draft in front of the first line.
    pub fn new(alloc: Global) -> Result<Draft, NoMemory>
        ensures first { IfOk result (λ draft. draft ≡ drafts.first_draft) }
    {
        Ok(Draft {
            part: Part::Imports,
            module: first_module(alloc)?,
            body: None,
        })
    }

    /// Takes a line.
    ///
    /// # Errors
    ///
    /// Want of memory alone.
    #[tactic(auto, unfolding(crate::specs::Draft::step))]
    pub fn take(&mut self, alloc: Global, line: TextLine) -> Result<Turn, NoMemory>
        requires room { length self.old.module.imports < 2 ^ 31 }
        ensures step { IfOk result (λ turn. Turned turn self.new (drafts.step self.old line)) }
    {
        match line {
            TextLine::Import { name } => self.import(alloc, name),
            TextLine::Memory { min } => self.memory(min),
            TextLine::Global { mutable, value } => self.global(alloc, mutable, value),
            TextLine::Data { offset, bytes } => self.data(alloc, offset, bytes),
            TextLine::Hook => self.function(alloc, b"hook", 0),
            TextLine::Cbak => self.function(alloc, b"cbak", 1),
            TextLine::Local { kind } => self.local(kind),
            TextLine::Plain(op) => self.plain(op),
            TextLine::Call { name } => self.call(name.as_slice()),
            TextLine::Close => self.close(),
            TextLine::Done => Ok(self.done()),
        }
    }

    fn import(&mut self, alloc: Global, name: Items<u8>) -> Result<Turn, NoMemory>
        requires room { length self.old.module.imports < 2 ^ 31 }
        ensures step { IfOk result (λ turn. Turned turn self.new
            (drafts.in_part self.old Part.Imports (drafts.import_step self.old name (row_named name)))) }
    {
        if rank(self.part) > rank(Part::Imports) {
            return Ok(Turn::Wrong(AsmRule::BadOrder));
        }
        let Some(row) = call_by_name(name.as_slice()) else {
            return Ok(Turn::Wrong(AsmRule::UnknownName));
        };
        if is_imported(self.module.imports.as_slice(), name.as_slice()) {
            return Ok(Turn::Wrong(AsmRule::RepeatedName));
        }
        let index = self.module.imports.len() as u32 + 1;
        self.module.types.push(row_type(alloc, row)?)?;
        self.module.imports.push(Import {
            module: name_items(alloc, b"env")?,
            name,
            item: ImportItem::Function(index),
        })?;
        self.part = Part::Imports;
        Ok(Turn::Goes)
    }

    fn memory(&mut self, min: u32) -> Result<Turn, NoMemory>
        ensures step { IfOk result (λ turn. Turned turn self.new (drafts.memory_step self.old min)) }
    {
        if rank(self.part) > rank(Part::Imports) {
            return Ok(Turn::Wrong(AsmRule::BadOrder));
        }
        self.module.memories.push(Limits { min, max: None })?;
        self.part = Part::Memory;
        Ok(Turn::Goes)
    }

    fn global(&mut self, alloc: Global, mutable: bool, value: Constant) -> Result<Turn, NoMemory>
        ensures step { IfOk result (λ turn. Turned turn self.new (drafts.in_part self.old Part.Globals
            (drafts.goes_in self.old Part.Globals
            (drafts.with_global self.old.module (drafts.global_of mutable value))))) }
    {
        if rank(self.part) > rank(Part::Globals) {
            return Ok(Turn::Wrong(AsmRule::BadOrder));
        }
        let (kind, constant) = match value {
            Constant::I32(number) => (ValueType::I32, Op::I32Const(number)),
            Constant::I64(number) => (ValueType::I64, Op::I64Const(number)),
        };
        self.module.globals.push(ModuleGlobal {
            kind,
            mutable,
            init: expression(alloc, constant)?,
        })?;
        self.part = Part::Globals;
        Ok(Turn::Goes)
    }

    fn data(&mut self, alloc: Global, offset: u32, bytes: Items<u8>) -> Result<Turn, NoMemory>
        ensures step { IfOk result (λ turn. Turned turn self.new (drafts.in_part self.old Part.Data
            (drafts.goes_in self.old Part.Data
            (drafts.with_segment self.old.module (drafts.segment_of offset bytes))))) }
    {
        if rank(self.part) > rank(Part::Data) {
            return Ok(Turn::Wrong(AsmRule::BadOrder));
        }
        self.module.segments.push(Segment {
            memory: 0,
            offset: expression(alloc, Op::I32Const(offset.cast_signed()))?,
            bytes,
        })?;
        self.part = Part::Data;
        Ok(Turn::Goes)
    }

    fn function(&mut self, alloc: Global, name: &[u8], before: u32) -> Result<Turn, NoMemory>
        requires room { length self.old.module.imports < 2 ^ 31 }
        requires few { before ≤ 1 }
        ensures step { IfOk result (λ turn. Turned turn self.new (drafts.function_step self.old name.now before)) }
    {
        if self.body.is_some() || self.module.codes.len() != before as usize {
            return Ok(Turn::Wrong(AsmRule::BadOrder));
        }
        self.module.functions.push(0)?;
        self.module.exports.push(ModuleExport {
            name: name_items(alloc, name)?,
            kind: 0,
            index: self.module.imports.len() as u32 + before,
        })?;
        self.part = Part::Functions;
        self.body = Some(Body {
            locals: Items::new(alloc),
            ops: Items::new(alloc),
            regions: Regions::new(alloc),
        });
        Ok(Turn::Goes)
    }

    fn local(&mut self, kind: ValueType) -> Result<Turn, NoMemory>
        ensures step { IfOk result (λ turn. Turned turn self.new
            (drafts.body_step self.old.body (drafts.local_step self.old kind))) }
    {
        let Some(mut body) = self.body.take() else {
            return Ok(Turn::Wrong(AsmRule::BadOrder));
        };
        if body.ops.len() > 0 {
            return Ok(Turn::Wrong(AsmRule::BadOrder));
        }
        body.locals.push((1, kind))?;
        self.body = Some(body);
        Ok(Turn::Goes)
    }

    fn plain(&mut self, op: Op) -> Result<Turn, NoMemory>
        ensures step { IfOk result (λ turn. Turned turn self.new (drafts.body_step self.old.body
            (λ body. drafts.plain_step self.old body op (opened op body.regions)))) }
    {
        let Some(mut body) = self.body.take() else {
            return Ok(Turn::Wrong(AsmRule::BadOrder));
        };
        if !body.regions.pass(&op)? {
            return Ok(Turn::Wrong(AsmRule::Unbalanced));
        }
        body.ops.push(op)?;
        self.body = Some(body);
        Ok(Turn::Goes)
    }

    fn call(&mut self, name: &[u8]) -> Result<Turn, NoMemory>
        requires room { length self.old.module.imports < 2 ^ 31 }
        ensures step { IfOk result (λ turn. Turned turn self.new (drafts.body_step self.old.body
            (λ body. drafts.call_step self.old body (drafts.import_named self.old.module.imports name.now)))) }
    {
        let Some(mut body) = self.body.take() else {
            return Ok(Turn::Wrong(AsmRule::BadOrder));
        };
        let Some(index) = import_named(self.module.imports.as_slice(), name) else {
            return Ok(Turn::Wrong(AsmRule::UnknownName));
        };
        body.ops.push(Op::Call(index as u32))?;
        self.body = Some(body);
        Ok(Turn::Goes)
    }

    fn close(&mut self) -> Result<Turn, NoMemory>
        ensures step { IfOk result (λ turn. Turned turn self.new
            (drafts.body_step self.old.body (drafts.close_step self.old))) }
    {
        let Some(
            Body {
                locals,
                mut ops,
                regions,
            },
        ) = self.body.take()
        else {
            return Ok(Turn::Wrong(AsmRule::BadOrder));
        };
        if !regions.is_empty() {
            return Ok(Turn::Wrong(AsmRule::Unbalanced));
        }
        ops.push(Op::End)?;
        self.module.codes.push(Code { locals, ops })?;
        Ok(Turn::Goes)
    }

    fn done(&self) -> Turn
        ensures step { Turned result self.now (drafts.done_step self.now) }
    {
        if self.body.is_none() && self.module.codes.len() > 0 {
            Turn::Ends
        } else {
            Turn::Wrong(AsmRule::BadOrder)
        }
    }
}

/// Items of one.
fn one<T: Drop>(alloc: Global, item: T) -> Result<Items<T>, NoMemory>
    ensures one { IfOk result (λ items. items ≡ item ∷ []) }
{
    let mut items = Items::new(alloc);
    items.push(item)?;
    Ok(items)
}

fn name_items(alloc: Global, name: &[u8]) -> Result<Items<u8>, NoMemory>
    ensures name { IfOk result (λ items. items ≡ name.now) }
{
    Ok(Items::from_vec(Vec::from_slice(alloc, name)?))
}

fn type_items(alloc: Global, types: &[ValueType]) -> Result<Items<ValueType>, NoMemory>
    ensures types { IfOk result (λ items. items ≡ types.now) }
{
    Ok(Items::from_vec(Vec::from_slice(alloc, types)?))
}

/// A module with nothing but the type of its functions.
fn first_module(alloc: Global) -> Result<Module, NoMemory>
    ensures first { IfOk result (λ found. found ≡ drafts.first_module) }
{
    let hook_type = FuncType {
        parameters: one(alloc, ValueType::I32)?,
        results: one(alloc, ValueType::I64)?,
    };
    Ok(Module {
        types: one(alloc, hook_type)?,
        imports: Items::new(alloc),
        functions: Items::new(alloc),
        tables: Items::new(alloc),
        memories: Items::new(alloc),
        globals: Items::new(alloc),
        exports: Items::new(alloc),
        start: None,
        elements: Items::new(alloc),
        codes: Items::new(alloc),
        segments: Items::new(alloc),
    })
}

/// The place of a part in their order.
fn rank(part: Part) -> u8
    ensures rank { result ≡ drafts.rank part }
{
    match part {
        Part::Imports => 0,
        Part::Memory => 1,
        Part::Globals => 2,
        Part::Data => 3,
        Part::Functions => 4,
    }
}

fn is_imported(imports: &[Import], name: &[u8]) -> bool
    ensures imported { result ≡ drafts.is_imported name.now imports.now }
{
    imports.iter().any(|import| import.name.as_slice() == name)
}

fn import_named(imports: &[Import], name: &[u8]) -> Option<usize>
    ensures index { result ≡ drafts.import_named imports.now name.now }
{
    imports
        .iter()
        .position(|import| import.name.as_slice() == name)
}

/// The type of the call in a row.
fn row_type(alloc: Global, row: CallNo) -> Result<FuncType, NoMemory>
    requires row { row.0 ≤ 64 }
    ensures row { IfOk result (λ kind. kind ≡ drafts.row_type row.0) }
{
    Ok(FuncType {
        parameters: type_items(alloc, call_parameters(row))?,
        results: one(alloc, call_answer(row))?,
    })
}

/// An instruction and the `end` behind it.
fn expression(alloc: Global, op: Op) -> Result<Items<Op>, NoMemory>
    ensures ops { IfOk result (λ items. items ≡ op ∷ Op.End ∷ []) }
{
    let mut ops = one(alloc, op)?;
    ops.push(Op::End)?;
    Ok(ops)
}
