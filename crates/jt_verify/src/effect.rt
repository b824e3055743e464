//! Computes the effect of an instruction on a shape, and its successors.
ghost use Rattle.std.specs.Prelude.{◌≡◌, ◌+◌, ◌^◌, ◌<◌, ◌≤◌, ◌&&◌, [], ◌∷◌, nat_lt, Ok, length};
ghost use Rattle.std.specs.Prelude.{false, option_map, slice_get};
ghost use Rattle.jt_image.specs.Code.{is_text as is_text_of};
ghost use Rattle.jt_image.specs.Ids.{operator_of, operands_of as operands_in, filter_of};
ghost use Rattle.jt_image.specs.Ids.{accepts as accepts_of, test_of, takes as takes_of};
ghost use Rattle.jt_image.specs.Typed.{max_entries};
ghost use Rattle.jt_ids.specs.OpTable.{op_operands};
ghost use Rattle.jt_verify.specs.Arena.{shape_in, IsIn, kind_of, Holds};
ghost use Rattle.jt_verify.specs.Shapes.{Requires, PointIn, FindsFrame};

use crate::arena::Arena;
use crate::nodes::{NonValue, ShapeId};
use jt_ids::{FilterId, OpId, TestId};
use jt_image::{Code, ConstantRef, Flaw, Instruction, Kind, LoopField, MAX_ENTRIES, UnitHeader};

/// The successors of an instruction: the next point, and the target of a jump.
#[derive(Clone, Copy)]
pub(crate) struct Successors {
    pub(crate) next: Option<usize>,
    pub(crate) target: Option<usize>,
}

/// The effect of an instruction: the shape after it without the mark, the mark on top, which is no
/// value, and the successors.
#[derive(Clone, Copy)]
pub(crate) struct Effect {
    pub(crate) shape: ShapeId,
    pub(crate) mark: Option<NonValue>,
    pub(crate) leads: Successors,
}

impl Effect {
    ghost use Rattle.jt_verify.specs.Typing.{unmarked};

    /// Returns an effect without a mark.
    fn new(shape: ShapeId, next: Option<usize>, target: Option<usize>) -> Effect
        ensures { result ≡ unmarked shape next target }
    {
        Effect {
            shape,
            mark: None,
            leads: Successors { next, target },
        }
    }
}

/// The reason why an instruction is refused.
#[derive(Clone, Copy, Debug)]
pub(crate) enum EffectError {
    Flaw(Flaw),
    /// The point that would be reached with more entries than a shape may have.
    TooTall(usize),
}

impl From<Flaw> for EffectError {
    ghost use Rattle.jt_verify.specs.declared.effect.EffectError.TheVariants as errors;

    ghost from_gives = { λ f e. e ≡ errors.Flaw f };

    fn from(flaw: Flaw) -> EffectError {
        EffectError::Flaw(flaw)
    }
}

/// The context of an instruction: its unit, its point, and the shape before it.
#[derive(Clone, Copy)]
pub(crate) struct InstrContext<'a> {
    pub(crate) arena: &'a Arena,
    pub(crate) header: &'a UnitHeader,
    pub(crate) point: usize,
    pub(crate) shape: ShapeId,
    ghost within: { point < header.now.instructions },
    ghost known: { IsIn arena.now shape },
    ghost small: { length (shape_in arena.now shape) ≤ max_entries },
}

impl InstrContext<'_> {
    ghost use Rattle.std.specs.Option.{is_some};
    ghost use Rattle.jt_image.specs.Effect.{require, calls as calls_of, goes_on as goes_on_of};
    ghost use Rattle.jt_image.specs.Effect.{jumps as jumps_of, may_return as may_return_of};
    ghost use Rattle.jt_image.specs.Effect.{effect as effect_of};
    ghost use Rattle.jt_ids.specs.LoopTable.{field_of};
    ghost use Rattle.jt_image.specs.declared.kind.Kind.TheVariants as kind;
    ghost use Rattle.jt_image.specs.declared.kind.Flaw.TheVariants as flaw;
    ghost use Rattle.jt_verify.specs.Typing.{Does, DoesWith, needing, below, under};
    ghost use Rattle.jt_verify.specs.Typing.{on_loop, branching, making, spreading, Fits};
    ghost use Rattle.jt_verify.specs.Typing.{IsHere, TakesHere, points_here, shape_of};

    // Returns the shape below the top entry, which must have the kind `wanted`.
    fn pop(&self, wanted: Kind) -> Result<ShapeId, Flaw>
        ensures { TakesHere self.now wanted result }
    {
        match self.arena.pop(self.shape) {
            Some((top, below)) if top == wanted => Ok(below),
            Some(_) => Err(Flaw::WrongKind),
            None => Err(Flaw::MissingOperand),
        }
    }

    // Returns a shape with one more value on top.
    fn push(&self, shape: ShapeId) -> ShapeId
        requires within { IsHere self.now shape }
        requires small { length (shape_of self.now shape) ≤ max_entries }
        ensures { Holds self.now.arena.now result (kind.Value ∷ shape_of self.now shape) }
    {
        self.arena.push_values(shape, 1)
    }

    // Returns the next point, or `FallsOff` if the unit has none.
    fn next(&self) -> Result<usize, Flaw>
        ensures { PointIn (points_here self.now) (self.now.point + 1) flaw.FallsOff result }
    {
        let instructions = self.header.instructions;
        if self.point + 1 >= instructions {
            return Err(Flaw::FallsOff);
        }
        Ok(self.point + 1)
    }

    // Returns the target of a jump, or `JumpOut` if the unit has no such point.
    fn target(&self, target: u32) -> Result<usize, Flaw>
        ensures { PointIn (points_here self.now) target flaw.JumpOut result }
    {
        if target as usize >= self.header.instructions {
            return Err(Flaw::JumpOut);
        }
        Ok(target as usize)
    }

    // Checks that `count` more entries fit on a shape. The error names `point`, which they would
    // reach.
    fn fits(&self, shape: ShapeId, count: usize, point: usize) -> Result<(), EffectError>
        requires within { IsHere self.now shape }
        requires small { count < 2 ^ 32 }
        ensures { Fits (length (shape_of self.now shape) + count) point result }
    {
        if self.arena.height(shape) + count > MAX_ENTRIES {
            return Err(EffectError::TooTall(point));
        }
        Ok(())
    }

    // Checks that a loop lies below `above` entries.
    fn check_frame(&self, shape: ShapeId, above: u32) -> Result<(), Flaw>
        requires { IsHere self.now shape }
        ensures { FindsFrame (slice_get (shape_of self.now shape) above) result }
    {
        match self.arena.kind_below(shape, above) {
            Some(Kind::Frame) => Ok(()),
            Some(Kind::Value) => Err(Flaw::WrongKind),
            Some(Kind::Capture) => Err(Flaw::WrongKind),
            None => Err(Flaw::MissingOperand),
        }
    }

    // Returns whether the unit may return here. Kind 0 needs no entries, any other kind exactly one
    // value.
    fn may_return(&self) -> bool
        ensures { result ≡ may_return_of self.now.header.now.kind
            (shape_of self.now self.now.shape) }
    {
        let kind = self.header.kind;
        match self.arena.pop(self.shape) {
            None => kind == 0,
            Some((Kind::Value, below)) => kind != 0 && self.arena.pop(below).is_none(),
            Some((Kind::Frame, _)) => false,
            Some((Kind::Capture, _)) => false,
        }
    }

    // Returns the effect that goes on to the next instruction with `shape`.
    fn goes_on(&self, shape: ShapeId) -> Result<Effect, EffectError>
        requires { IsHere self.now shape }
        ensures { DoesWith self.now shape result goes_on_of }
    {
        Ok(Effect::new(shape, Some(self.next()?), None))
    }

    // Returns the effect that goes on with `mark` on top of `shape`. Fails if the shape would be
    // too long at the next point.
    fn opens(&self, shape: ShapeId, mark: NonValue) -> Result<Effect, EffectError>
        requires { IsHere self.now shape }
        ensures { DoesWith self.now shape result (under (kind_of mark) goes_on_of) }
    {
        let next = self.next()?;
        self.fits(shape, 1, next)?;
        let mut effect = Effect::new(shape, Some(next), None);
        effect.mark = Some(mark);
        Ok(effect)
    }

    // Returns the effect that goes to the target of a jump.
    fn jumps(&self, target: u32) -> Result<Effect, EffectError>
        ensures { Does self.now result (λ u p s. jumps_of u target s) }
    {
        Ok(Effect::new(self.shape, None, Some(self.target(target)?)))
    }

    // Returns the effect that goes to the next instruction or to `target`.
    fn branches(&self, target: u32, shape: ShapeId) -> Result<Effect, EffectError>
        requires { IsHere self.now shape }
        ensures { DoesWith self.now shape result (branching target) }
    {
        let target = self.target(target)?;
        Ok(Effect::new(shape, Some(self.next()?), Some(target)))
    }

    // Returns the effect that replaces `count` values by one and goes on.
    fn makes(&self, count: usize) -> Result<Effect, EffectError>
        ensures { Does self.now result (making count) }
    {
        let below = self.arena.pop_values(self.shape, count)?;
        self.goes_on(self.push(below))
    }

    // Returns the effect that pushes `count` values onto `shape` and goes on. Fails if the shape
    // would be too long at the next point.
    fn spreads(&self, shape: ShapeId, count: u32) -> Result<Effect, EffectError>
        requires { IsHere self.now shape }
        ensures { DoesWith self.now shape result (spreading count) }
    {
        let next = self.next()?;
        self.fits(shape, count as usize, next)?;
        let more = self.arena.push_values(shape, count);
        Ok(Effect::new(more, Some(next), None))
    }

    // Returns the effect that replaces the arguments of a unit by its result, if it has one, and
    // goes on.
    fn calls<C: Code>(&self, code: &C, unit: u32) -> Result<Effect, EffectError>
        ensures { Does self.now result
            (λ u p s. calls_of u p (slice_get (C.code code.now).units unit) s) }
    {
        let called = code.unit(unit as usize).ok_or(Flaw::BadIndex)?;
        let parameters = usize::from(called.parameters);
        let below = self.arena.pop_values(self.shape, parameters)?;
        if called.kind == 0 {
            return self.goes_on(below);
        }
        self.goes_on(self.push(below))
    }

    // Returns the effect that pushes a value and goes on. Fails with `BadIndex` unless `there` is
    // true.
    fn loads(&self, there: bool) -> Result<Effect, EffectError>
        ensures { Does self.now result (needing there (under kind.Value goes_on_of)) }
    {
        require(there, Flaw::BadIndex)?;
        self.goes_on(self.push(self.shape))
    }

    // Returns the effect that pops a value and goes on. Fails with `BadIndex` unless `there` is
    // true.
    fn stores(&self, there: bool) -> Result<Effect, EffectError>
        ensures { Does self.now result (needing there (below kind.Value goes_on_of)) }
    {
        require(there, Flaw::BadIndex)?;
        self.goes_on(self.pop(Kind::Value)?)
    }

    // Returns the effect that goes on with an unchanged shape. Fails with `BadIndex` unless `there`
    // is true.
    fn stays(&self, there: bool) -> Result<Effect, EffectError>
        ensures { Does self.now result (needing there goes_on_of) }
    {
        require(there, Flaw::BadIndex)?;
        self.goes_on(self.shape)
    }

    // Returns the effect that pushes a copy of the top value and goes on.
    fn copies(&self) -> Result<Effect, EffectError>
        ensures { Does self.now result
            (below kind.Value (under kind.Value (under kind.Value goes_on_of))) }
    {
        let _below = self.pop(Kind::Value)?;
        self.goes_on(self.push(self.shape))
    }

    // Returns the effect that pops a value, and goes to the next instruction or to `target`.
    fn tests(&self, target: u32) -> Result<Effect, EffectError>
        ensures { Does self.now result (below kind.Value (branching target)) }
    {
        self.branches(target, self.pop(Kind::Value)?)
    }

    // Returns the effect that replaces the operands of an operator by its result and goes on.
    fn operates(&self, operator: u8) -> Result<Effect, EffectError>
        ensures { Does self.now result (needing (is_some (operator_of operator))
            (making (operands_in (operator_of operator)))) }
    {
        self.makes(operands_of(operator).ok_or(Flaw::BadIndex)?)
    }

    // Returns the effect that replaces `count` values by one and goes on. Fails with `BadIndex`
    // unless `there` is true.
    fn makes_by(&self, there: bool, count: u16) -> Result<Effect, EffectError>
        ensures { Does self.now result (needing there (making count)) }
    {
        require(there, Flaw::BadIndex)?;
        self.makes(usize::from(count))
    }

    // Returns the effect that replaces a value by a loop over it and goes on.
    fn starts(&self) -> Result<Effect, EffectError>
        ensures { Does self.now result (below kind.Value (under kind.Frame goes_on_of)) }
    {
        self.opens(self.pop(Kind::Value)?, NonValue::Frame)
    }

    // Returns the effect that keeps the loop at the top, and goes to the next instruction or to
    // `target`.
    fn turns(&self, target: u32) -> Result<Effect, EffectError>
        ensures { Does self.now result (below kind.Frame (under kind.Frame (branching target))) }
    {
        let _below = self.pop(Kind::Frame)?;
        self.branches(target, self.shape)
    }

    // Returns the effect that pushes a field of the loop that lies below `above` entries, and goes
    // on.
    fn reads(&self, field: u8, above: u32) -> Result<Effect, EffectError>
        ensures { Does self.now result (needing (is_some (field_of field))
            (on_loop above (under kind.Value goes_on_of))) }
    {
        require(LoopField::by_id(field).is_some(), Flaw::BadIndex)?;
        self.check_frame(self.shape, above)?;
        self.goes_on(self.push(self.shape))
    }

    // Returns the effect that pops a value and goes on, if a loop then lies below `above` entries.
    fn keeps(&self, above: u32) -> Result<Effect, EffectError>
        ensures { Does self.now result (below kind.Value (on_loop above goes_on_of)) }
    {
        let below = self.pop(Kind::Value)?;
        self.check_frame(below, above)?;
        self.goes_on(below)
    }

    // Returns the effect that keeps the loop at the top and goes on.
    fn rewinds(&self) -> Result<Effect, EffectError>
        ensures { Does self.now result (below kind.Frame (under kind.Frame goes_on_of)) }
    {
        let _below = self.pop(Kind::Frame)?;
        self.goes_on(self.shape)
    }

    // Returns the effect that replaces a loop or a capture by a value and goes on.
    fn ends(&self, wanted: Kind) -> Result<Effect, EffectError>
        ensures { Does self.now result (below wanted (under kind.Value goes_on_of)) }
    {
        self.goes_on(self.push(self.pop(wanted)?))
    }

    // Returns the effect that replaces a capture by a value and goes on. Fails with `BadIndex`
    // unless `flag` is 0 or 1.
    fn captures(&self, flag: u8) -> Result<Effect, EffectError>
        ensures { Does self.now result
            (needing (nat_lt flag 2) (below kind.Capture (under kind.Value goes_on_of))) }
    {
        require(is_flag(flag), Flaw::BadIndex)?;
        self.ends(Kind::Capture)
    }

    // Returns the effect that replaces a value by `count` values and goes on.
    fn unpacks(&self, count: u32) -> Result<Effect, EffectError>
        ensures { Does self.now result (below kind.Value (spreading count)) }
    {
        self.spreads(self.pop(Kind::Value)?, count)
    }

    // Returns the effect that ends the unit, if it may return with this shape.
    fn returns(&self) -> Result<Effect, EffectError>
        ensures { Does self.now result (λ u p s. require (may_return_of u.kind s) flaw.BadReturn
            (Ok (record { shape = s; points = [] }))) }
    {
        require(self.may_return(), Flaw::BadReturn)?;
        Ok(Effect::new(self.shape, None, None))
    }

    /// Returns the effect of an instruction in this context.
    pub(crate) fn effect<C: Code>(
        &self,
        code: &C,
        instruction: Instruction,
    ) -> Result<Effect, EffectError>
        ensures { Does self.now result (λ u p s. effect_of (C.code code.now) u p instruction s) }
    {
        let locals = u32::from(self.header.locals);
        match instruction {
            Instruction::Const { constant } => self.loads((constant as usize) < code.constants()),
            Instruction::Load { local } => self.loads(local < locals),
            Instruction::Store { local } => self.stores(local < locals),
            Instruction::GLoad { global } => self.loads(global < u32::from(code.globals())),
            Instruction::GStore { global } => self.stores(global < u32::from(code.globals())),
            Instruction::Drop => self.stores(true),
            Instruction::Dup => self.copies(),
            Instruction::Emit { flag } => self.stores(is_flag(flag)),
            Instruction::Data { constant } => self.stays(is_text(code, constant)),
            Instruction::Jump { target } => self.jumps(target),
            Instruction::JumpIfFalse { target } => self.tests(target),
            Instruction::JumpIfTrue { target } => self.tests(target),
            Instruction::Op { operator } => self.operates(operator),
            Instruction::Filter {
                filter,
                values,
                flag,
            } => self.makes_by(is_filter(filter, values, flag), values),
            Instruction::Test { test, values } => self.makes_by(takes(test, values), values),
            Instruction::MakeList { items } => self.makes(items as usize),
            Instruction::MakeMap { entries } => self.makes(2 * entries as usize),
            Instruction::LoopStart => self.starts(),
            Instruction::LoopNext { target } => self.turns(target),
            Instruction::LoopGet { field, above } => self.reads(field, above),
            Instruction::LoopKeep { above } => self.keeps(above),
            Instruction::LoopRewind => self.rewinds(),
            Instruction::LoopEnd => self.ends(Kind::Frame),
            Instruction::CaptureBegin => self.opens(self.shape, NonValue::Capture),
            Instruction::CaptureEnd { flag } => self.captures(flag),
            Instruction::Unpack { values } => self.unpacks(values),
            Instruction::Call { unit } => self.calls(code, unit),
            Instruction::Return => self.returns(),
        }
    }
}

// Checks that `holds` is true, and fails with `flaw` otherwise.
fn require(holds: bool, flaw: Flaw) -> Result<(), Flaw>
    ensures { Requires holds flaw result }
{
    if holds { Ok(()) } else { Err(flaw) }
}

// Returns the number of operands of the operator with this id, if it exists.
fn operands_of(operator: u8) -> Option<usize>
    ensures { result ≡ option_map op_operands (operator_of operator) }
{
    OpId::by_id(operator).map(|operator| operator.operands())
}

// Returns whether the filter with this id exists and takes `values` values, its input included.
fn accepts(filter: u8, values: u16) -> bool
    ensures { result ≡ accepts_of (filter_of filter) values }
{
    FilterId::by_id(filter).is_some_and(|filter| filter.takes(usize::from(values)))
}

// Returns whether the filter with this id exists and takes `values` values, and `flag` is 0 or 1.
fn is_filter(filter: u8, values: u16, flag: u32) -> bool
    ensures { result ≡ (accepts_of (filter_of filter) values && nat_lt flag 2) }
{
    accepts(filter, values) && flag < 2
}

// Returns whether the test with this id exists and takes `values` values.
fn takes(test: u8, values: u16) -> bool
    ensures { result ≡ takes_of (test_of test) values }
{
    TestId::by_id(test).is_some_and(|test| test.takes(usize::from(values)))
}

fn is_text<C: Code>(code: &C, constant: u32) -> bool
    ensures { result ≡ is_text_of (slice_get (C.code code.now).constants constant) }
{
    matches!(code.constant(constant as usize), Some(ConstantRef::Text(_)))
}

fn is_flag(flag: u8) -> bool
    ensures { result ≡ nat_lt flag 2 }
{
    flag < 2
}
