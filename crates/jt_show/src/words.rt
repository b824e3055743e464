//! Names the operators, filters, tests and fields of loops, and the flags.
ghost use Rattle.std.specs.Prelude.{◌≡◌, option_map};
ghost use Rattle.jt_image.specs.Ids.{operator_of, filter_of, test_of};
ghost use Rattle.jt_ids.specs.LoopTable.{field_of};
ghost use Rattle.jt_show.specs.Words as words;

use jt_ids::{FilterId, LoopField, OpId, TestId};

/// Returns what a listing calls the operator of an id.
pub(crate) fn operator_word(id: u8) -> Option<&'static str>
    ensures { option_map (λ word. word.now) result
        ≡ option_map words.operator_word (operator_of id) }
{
    match operator_by(id) {
        Some(operator) => Some(word_of_operator(operator)),
        None => None,
    }
}

/// Returns what a listing calls the filter of an id.
pub(crate) fn filter_word(id: u8) -> Option<&'static str>
    ensures { option_map (λ word. word.now) result
        ≡ option_map words.filter_word (filter_of id) }
{
    match filter_by(id) {
        Some(filter) => Some(word_of_filter(filter)),
        None => None,
    }
}

/// Returns what a listing calls the test of an id.
pub(crate) fn test_word(id: u8) -> Option<&'static str>
    ensures { option_map (λ word. word.now) result ≡ option_map words.test_word (test_of id) }
{
    match test_by(id) {
        Some(test) => Some(word_of_test(test)),
        None => None,
    }
}

/// Returns what a listing calls the field of a loop with an id.
pub(crate) fn field_word(id: u8) -> Option<&'static str>
    ensures { option_map (λ word. word.now) result ≡ option_map words.field_word (field_of id) }
{
    match LoopField::by_id(id) {
        Some(field) => Some(word_of_field(field)),
        None => None,
    }
}

/// Returns what a listing calls the kind of a unit.
pub(crate) fn kind_word(kind: u8) -> Option<&'static str>
    ensures { option_map (λ word. word.now) result ≡ words.kind_word kind }
{
    match kind {
        0 => Some("emits"),
        1 => Some("returns a value"),
        _ => None,
    }
}

/// Returns what a listing calls the flag of Emit.
pub(crate) fn emit_word(flag: u8) -> Option<&'static str>
    ensures { option_map (λ word. word.now) result ≡ words.emit_word flag }
{
    match flag {
        0 => Some("plain"),
        1 => Some("escaped"),
        _ => None,
    }
}

/// Returns what a listing calls the flag of CaptureEnd.
pub(crate) fn capture_word(flag: u8) -> Option<&'static str>
    ensures { option_map (λ word. word.now) result ≡ words.capture_word flag }
{
    match flag {
        0 => Some("text"),
        1 => Some("markup"),
        _ => None,
    }
}

/// Returns the operator of an id.
fn operator_by(id: u8) -> Option<OpId>
    ensures { result ≡ operator_of id }
{
    OpId::by_id(id)
}

/// Returns the filter of an id.
fn filter_by(id: u8) -> Option<FilterId>
    ensures { result ≡ filter_of id }
{
    FilterId::by_id(id)
}

/// Returns the test of an id.
fn test_by(id: u8) -> Option<TestId>
    ensures { result ≡ test_of id }
{
    TestId::by_id(id)
}

/// Returns what a listing calls an operator.
fn word_of_operator(operator: OpId) -> &'static str
    ensures { result.now ≡ words.operator_word operator }
{
    match operator {
        OpId::Add => "+",
        OpId::Subtract => "-",
        OpId::Multiply => "*",
        OpId::FloorDivide => "//",
        OpId::Remainder => "%",
        OpId::Power => "**",
        OpId::Negate => "sign -",
        OpId::Plus => "sign +",
        OpId::Not => "not",
        OpId::Join => "~",
        OpId::JoinEscaping => "~ escaping",
        OpId::Equal => "==",
        OpId::NotEqual => "!=",
        OpId::Less => "<",
        OpId::LessOrEqual => "<=",
        OpId::Greater => ">",
        OpId::GreaterOrEqual => ">=",
        OpId::In => "in",
        OpId::Item => "item",
        OpId::RangeToStop => "range to stop",
        OpId::RangeFromStart => "range from start",
        OpId::RangeByStep => "range by step",
    }
}

/// Returns what a listing calls a filter: the first of its names.
fn word_of_filter(filter: FilterId) -> &'static str
    ensures { result.now ≡ words.filter_word filter }
{
    match filter {
        FilterId::Abs => "abs",
        FilterId::Attr => "attr",
        FilterId::Capitalize => "capitalize",
        FilterId::Default => "default",
        FilterId::DictSort => "dictsort",
        FilterId::Escape => "escape",
        FilterId::First => "first",
        FilterId::ForceEscape => "forceescape",
        FilterId::Int => "int",
        FilterId::Items => "items",
        FilterId::Join => "join",
        FilterId::Last => "last",
        FilterId::Length => "length",
        FilterId::List => "list",
        FilterId::Lower => "lower",
        FilterId::Map => "map",
        FilterId::Max => "max",
        FilterId::Min => "min",
        FilterId::Reject => "reject",
        FilterId::RejectAttr => "rejectattr",
        FilterId::Replace => "replace",
        FilterId::Reverse => "reverse",
        FilterId::Safe => "safe",
        FilterId::Select => "select",
        FilterId::SelectAttr => "selectattr",
        FilterId::Sort => "sort",
        FilterId::String => "string",
        FilterId::Sum => "sum",
        FilterId::Trim => "trim",
        FilterId::Unique => "unique",
        FilterId::Upper => "upper",
        FilterId::MapAttribute => "map by attribute",
    }
}

/// Returns what a listing calls a test: the first of its names.
fn word_of_test(test: TestId) -> &'static str
    ensures { result.now ≡ words.test_word test }
{
    match test {
        TestId::Boolean => "boolean",
        TestId::Defined => "defined",
        TestId::DivisibleBy => "divisibleby",
        TestId::Equal => "eq",
        TestId::NotEqual => "ne",
        TestId::Escaped => "escaped",
        TestId::Even => "even",
        TestId::Odd => "odd",
        TestId::False => "false",
        TestId::True => "true",
        TestId::GreaterOrEqual => "ge",
        TestId::Greater => "gt",
        TestId::LessOrEqual => "le",
        TestId::Less => "lt",
        TestId::In => "in",
        TestId::Integer => "integer",
        TestId::Mapping => "mapping",
        TestId::None => "none",
        TestId::String => "string",
        TestId::Undefined => "undefined",
    }
}

/// Returns what a listing calls a field of a loop.
fn word_of_field(field: LoopField) -> &'static str
    ensures { result.now ≡ words.field_word field }
{
    match field {
        LoopField::Item => "item",
        LoopField::Index => "index",
        LoopField::Index0 => "index0",
        LoopField::RevIndex => "revindex",
        LoopField::RevIndex0 => "revindex0",
        LoopField::First => "first",
        LoopField::Last => "last",
        LoopField::Length => "length",
        LoopField::Previous => "previtem",
        LoopField::Next => "nextitem",
    }
}
