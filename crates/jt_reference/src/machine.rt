//! Runs an image with a list of activations, the running one last, each with its own point, locals
//! and entries. It follows the table of instructions literally. It shares with the machine only
//! values, and the results of operators, filters and tests.
//!
//! It keeps every value that was made, and refers to a value by its index. Entries own no values,
//! so dropping them needs no work, and the prover has little to do.

ghost use Rattle.std.specs.Prelude.{◌≤◌, IfOk, OnOk};
ghost use Rattle.std.specs.String.{string_len};
ghost use Rattle.jt_reference.specs.internal.Output.{most};

use crate::buffers::Buffers;
use crate::end::End;
use crate::loops::Loop;
use jt_budget::{Budget, Spent};
use jt_escape::escape_into;
use jt_image::{Code, ConstantRef, Image, Instruction};
use jt_value::{Context, Value};
use std::alloc::Global;

/// The index of the value undefined, which is the first one.
pub(crate) const UNDEFINED: usize = 0;

/// An entry of an activation: the index of a value or of a loop, or a capture.
#[derive(Clone, Copy)]
pub(crate) enum StackEntry {
    Value(usize),
    Loop(usize),
    Capture,
}

/// A unit that runs or waits, and the point at which it goes on.
#[derive(Drop)]
pub(crate) struct Activation {
    unit: usize,
    pub(crate) point: usize,
    locals: Vec<usize>,
    entries: Vec<StackEntry>,
}

/// The rest of an instruction after it changed the values: output, a capture to open or close, the
/// end of the run, or nothing.
#[derive(Drop)]
enum Next {
    GoOn,
    Put(String),
    Open,
    Close { is_markup: bool },
    Done,
}

/// The state of a run between two instructions, without its output.
#[derive(Drop)]
pub(crate) struct ReferenceMachine<'a> {
    pub(crate) alloc: Global,
    image: &'a Image,
    activations: Vec<Activation>,
    pub(crate) values: Vec<Value>,
    pub(crate) loops: Vec<Loop>,
    globals: Vec<usize>,
    pub(crate) left: Budget,
}

/// Runs an image and returns its text, which fits the output budget. Tests compare it with the text
/// of the machine.
///
/// # Errors
///
/// The `End` of a run that ends without a text.
pub fn reference_end(
    alloc: Global,
    image: &Image,
    context: &Context,
    budget: Budget,
) -> Result<String, End>
    ensures within { IfOk result (λ text. string_len text ≤ budget.output) }
{
    let mut plain = begun(alloc, image, budget)?;
    plain.bind(context)?;
    carried_on(plain, Buffers::new(alloc, budget.output), budget.fuel)
}

// Returns a run before its first instruction, in which no name has a value.
fn begun(alloc: Global, image: &Image, budget: Budget) -> Result<ReferenceMachine<'_>, End> {
    let header = image.unit(0).ok_or(End::Wrong)?;
    let first = Activation {
        unit: 0,
        point: 0,
        locals: vec![in alloc; UNDEFINED; usize::from(header.locals)]?,
        entries: Vec::new(alloc),
    };
    Ok(ReferenceMachine {
        alloc,
        image,
        activations: vec![in alloc; first]?,
        values: vec![in alloc; Value::Undefined]?,
        loops: Vec::new(alloc),
        globals: vec![in alloc; UNDEFINED; usize::from(image.globals())]?,
        left: budget,
    })
}

// Executes instructions until the run ends. Each costs at least 1, so `fuel` + 1 steps suffice.
fn carried_on(plain: ReferenceMachine<'_>, buffers: Buffers, fuel: u64) -> Result<String, End>
    ensures { IfOk result (λ text. string_len text ≤ most buffers) }
{
    let mut plain = plain;
    let mut buffers = buffers;
    for _ in 0..=fuel {
        if turn(&mut plain, &mut buffers)? {
            return Ok(buffers.text);
        }
    }
    Err(End::Wrong)
}

// Executes one instruction with its output, and returns whether it was the last one.
fn turn(plain: &mut ReferenceMachine<'_>, buffers: &mut Buffers) -> Result<bool, End>
    ensures { OnOk result (most buffers.new ≤ most buffers.old) }
{
    match plain.step()? {
        Next::GoOn => {}
        Next::Put(text) => buffers.put(&text)?,
        Next::Open => buffers.open(plain.alloc)?,
        Next::Close { is_markup } => plain.push_captured(buffers.close()?, is_markup)?,
        Next::Done => return Ok(true),
    }
    Ok(false)
}

/// Checks a value against the limits, its size first.
pub(crate) fn fit(value: &Value, left: &Budget) -> Result<(), End> {
    if value.size() > u64::from(left.size) {
        return Err(End::Spent(Spent::Size));
    }
    if value.nesting() > u32::from(left.nesting) {
        return Err(End::Spent(Spent::Nesting));
    }
    Ok(())
}

impl ReferenceMachine<'_> {
    // Sets the globals that have a name to the values of a context.
    fn bind(&mut self, context: &Context) -> Result<(), End> {
        for i in 0..self.image.names() {
            let (slot, name) = self.image.name(i).ok_or(End::Wrong)?;
            if let Some(value) = context.get(name) {
                fit(value, &self.left)?;
                let copy = value.try_clone(self.alloc)?;
                let place = self.kept(copy)?;
                self.set_global(usize::from(slot), place)?;
            }
        }
        Ok(())
    }

    fn step(&mut self) -> Result<Next, End> {
        let running = self.running()?;
        let (unit, point) = (running.unit, running.point);
        running.point = point.saturating_add(1);
        let instruction = self.image.instruction(unit, point).ok_or(End::Wrong)?;
        match instruction {
            Instruction::Emit { flag } => self.emit(flag == 1),
            Instruction::Data { constant } => self.data(constant as usize),
            Instruction::CaptureBegin => self.begin_capture(),
            Instruction::CaptureEnd { flag } => self.end_capture(flag == 1),
            Instruction::Return => self.return_to_caller(),
            _ => {
                self.act(instruction)?;
                Ok(Next::GoOn)
            }
        }
    }

    // Executes an instruction that changes no buffer and does not end the run.
    fn act(&mut self, instruction: Instruction) -> Result<(), End> {
        match instruction {
            Instruction::Jump { target } => self.jump(target),
            Instruction::JumpIfFalse { target } => self.branch(target, false),
            Instruction::JumpIfTrue { target } => self.branch(target, true),
            Instruction::LoopNext { target } => self.next_turn(target),
            Instruction::Call { unit } => self.call(unit as usize),
            Instruction::Const { constant } => self.constant(constant as usize),
            Instruction::Load { local } => self.load(local as usize),
            Instruction::Store { local } => self.store(local as usize),
            Instruction::GLoad { global } => self.load_global(global as usize),
            Instruction::GStore { global } => self.store_global(global as usize),
            Instruction::Drop => self.release(),
            Instruction::Dup => self.double(),
            _ => self.make(instruction),
        }
    }

    // Executes an instruction that makes a value from several, or that belongs to a loop.
    fn make(&mut self, instruction: Instruction) -> Result<(), End> {
        match instruction {
            Instruction::Op { operator } => self.operate(operator),
            Instruction::Filter {
                filter,
                values,
                flag,
            } => { self.filter(filter, usize::from(values), flag == 1) }
            Instruction::Test { test, values } => self.test(test, usize::from(values)),
            Instruction::MakeList { items } => self.make_list(items as usize),
            Instruction::MakeMap { entries } => self.make_map(entries as usize),
            Instruction::Unpack { values } => self.unpack(values as usize),
            Instruction::LoopStart => self.start_loop(),
            Instruction::LoopGet { field, above } => self.loop_field(field, above as usize),
            Instruction::LoopKeep { above } => self.keep(above as usize),
            Instruction::LoopRewind => self.rewind(),
            Instruction::LoopEnd => self.end_loop(),
            _ => Err(End::Wrong),
        }
    }

    pub(crate) fn running(&mut self) -> Result<&mut Activation, End> {
        self.activations.last_mut().ok_or(End::Wrong)
    }

    pub(crate) fn pay(&mut self, cost: u64) -> Result<(), End> {
        if cost > self.left.fuel {
            return Err(End::Spent(Spent::Fuel));
        }
        self.left.fuel -= cost;
        Ok(())
    }

    /// Returns the value at an index.
    pub(crate) fn value(&self, place: usize) -> Result<&Value, End> {
        self.values.get(place).ok_or(End::Wrong)
    }

    // Stores a value and returns its index.
    fn kept(&mut self, value: Value) -> Result<usize, End> {
        let place = self.values.len();
        self.values.push(value)?;
        Ok(place)
    }

    pub(crate) fn push_entry(&mut self, entry: StackEntry) -> Result<(), End> {
        self.running()?.entries.push(entry)?;
        Ok(())
    }

    /// Pushes the value at an index, if it is within the limits.
    pub(crate) fn push_at(&mut self, place: usize) -> Result<(), End> {
        let left = self.left;
        fit(self.value(place)?, &left)?;
        self.push_entry(StackEntry::Value(place))
    }

    /// Pushes a new value, if it is within the limits.
    pub(crate) fn push(&mut self, value: Value) -> Result<(), End> {
        let place = self.kept(value)?;
        self.push_at(place)
    }

    pub(crate) fn pop_entry(&mut self) -> Result<StackEntry, End> {
        self.running()?.entries.pop().ok_or(End::Wrong)
    }

    pub(crate) fn pop(&mut self) -> Result<usize, End> {
        match self.pop_entry()? {
            StackEntry::Value(place) => Ok(place),
            _ => Err(End::Wrong),
        }
    }

    // Pops `count` values and returns their indices, the deepest first.
    pub(crate) fn pop_many(&mut self, count: usize) -> Result<Vec<usize>, End> {
        let mut places = Vec::new(self.alloc);
        for _ in 0..count {
            places.push(self.pop()?)?;
        }
        places.reverse();
        Ok(places)
    }

    // Returns the loop that lies below `above` entries.
    pub(crate) fn loop_at(&mut self, above: usize) -> Result<&mut Loop, End> {
        let entries = &self.running()?.entries;
        let depth = above.saturating_add(1);
        let place = entries.len().checked_sub(depth).ok_or(End::Wrong)?;
        match entries.get(place) {
            Some(StackEntry::Loop(place)) => {
                let place = *place;
                self.loops.get_mut(place).ok_or(End::Wrong)
            }
            _ => Err(End::Wrong),
        }
    }

    pub(crate) fn jump(&mut self, target: u32) -> Result<(), End> {
        self.pay(1)?;
        self.running()?.point = target as usize;
        Ok(())
    }

    fn branch(&mut self, target: u32, when: bool) -> Result<(), End> {
        let place = self.pop()?;
        self.pay(1)?;
        if self.value(place)?.truth() == when {
            self.running()?.point = target as usize;
        }
        Ok(())
    }

    fn constant(&mut self, index: usize) -> Result<(), End> {
        self.pay(1)?;
        let value = match self.image.constant(index).ok_or(End::Wrong)? {
            ConstantRef::Undefined => Value::Undefined,
            ConstantRef::None => Value::None,
            ConstantRef::Bool(truth) => Value::Bool(truth),
            ConstantRef::Int(number) => Value::Int(number),
            ConstantRef::Text(text) => Value::text(self.alloc, text)?,
            ConstantRef::Markup(text) => Value::markup(self.alloc, text)?,
        };
        self.push(value)
    }

    fn load(&mut self, local: usize) -> Result<(), End> {
        self.pay(1)?;
        let place = *self.running()?.locals.get(local).ok_or(End::Wrong)?;
        self.push_at(place)
    }

    fn store(&mut self, local: usize) -> Result<(), End> {
        let place = self.pop()?;
        self.pay(1)?;
        *self.running()?.locals.get_mut(local).ok_or(End::Wrong)? = place;
        Ok(())
    }

    fn load_global(&mut self, global: usize) -> Result<(), End> {
        self.pay(1)?;
        let place = *self.globals.get(global).ok_or(End::Wrong)?;
        self.push_at(place)
    }

    fn store_global(&mut self, global: usize) -> Result<(), End> {
        let place = self.pop()?;
        self.pay(1)?;
        self.set_global(global, place)
    }

    fn set_global(&mut self, global: usize, place: usize) -> Result<(), End> {
        *self.globals.get_mut(global).ok_or(End::Wrong)? = place;
        Ok(())
    }

    fn release(&mut self) -> Result<(), End> {
        self.pop()?;
        self.pay(1)
    }

    fn double(&mut self) -> Result<(), End> {
        let place = self.pop()?;
        self.pay(1)?;
        self.push_entry(StackEntry::Value(place))?;
        self.push_at(place)
    }

    fn emit(&mut self, escaping: bool) -> Result<Next, End> {
        let place = self.pop()?;
        let cost = 1 + self.value(place)?.size() / 64;
        self.pay(cost)?;
        Ok(Next::Put(self.printed(place, escaping)?))
    }

    // Returns the printed text of a value, escaped if `escaping` is true and it is not markup.
    fn printed(&self, place: usize, escaping: bool) -> Result<String, End> {
        let value = self.value(place)?;
        let text = value.printed(self.alloc)?;
        if !escaping || matches!(value, Value::Markup(_)) {
            return Ok(text);
        }
        let mut escaped = String::new(self.alloc);
        escape_into(&text, &mut escaped)?;
        Ok(escaped)
    }

    fn data(&mut self, index: usize) -> Result<Next, End> {
        self.pay(1)?;
        match self.image.constant(index) {
            Some(ConstantRef::Text(text)) => Ok(Next::Put(String::from_str(self.alloc, text)?)),
            _ => Err(End::Wrong),
        }
    }

    fn begin_capture(&mut self) -> Result<Next, End> {
        self.pay(1)?;
        self.push_entry(StackEntry::Capture)?;
        Ok(Next::Open)
    }

    fn end_capture(&mut self, is_markup: bool) -> Result<Next, End> {
        let StackEntry::Capture = self.pop_entry()? else {
            return Err(End::Wrong);
        };
        self.pay(1)?;
        Ok(Next::Close { is_markup })
    }

    // Pushes a captured text, if it is within the limits.
    fn push_captured(&mut self, text: String, is_markup: bool) -> Result<(), End> {
        let value = if is_markup {
            Value::from_markup(text)?
        } else {
            Value::from_text(text)?
        };
        self.push(value)
    }

    fn call(&mut self, unit: usize) -> Result<(), End> {
        let header = self.image.unit(unit).ok_or(End::Wrong)?;
        let mut locals = self.pop_many(usize::from(header.parameters))?;
        self.pay(1)?;
        let depth = self.left.depth.checked_sub(1);
        self.left.depth = depth.ok_or(End::Spent(Spent::Depth))?;
        locals.resize(usize::from(header.locals), UNDEFINED)?;
        self.activations.push(Activation {
            unit,
            point: 0,
            locals,
            entries: Vec::new(self.alloc),
        })?;
        Ok(())
    }

    // Returns to the caller with the result of the unit, or ends the run.
    fn return_to_caller(&mut self) -> Result<Next, End> {
        self.pay(1)?;
        let given = self.running()?.entries.pop();
        self.activations.pop();
        if self.activations.is_empty() {
            return Ok(Next::Done);
        }
        self.left.depth = self.left.depth.saturating_add(1);
        match given {
            None => {}
            Some(StackEntry::Value(place)) => self.push_at(place)?,
            Some(_) => return Err(End::Wrong),
        }
        Ok(Next::GoOn)
    }
}
