//! Lists the names of all filters and tests.

ghost use Rattle.std.specs.Prelude.{◌≡◌, map};
ghost use Rattle.std.specs.List.{flat_map};
ghost use Rattle.jt_ids.specs.FilterTable.{filters, filter_names};
ghost use Rattle.jt_ids.specs.TestTable.{tests, test_names};

static FILTER_NAMES: [&str; 34] = [
    "abs",
    "attr",
    "capitalize",
    "default",
    "d",
    "dictsort",
    "escape",
    "e",
    "first",
    "forceescape",
    "int",
    "items",
    "join",
    "last",
    "length",
    "count",
    "list",
    "lower",
    "map",
    "max",
    "min",
    "reject",
    "rejectattr",
    "replace",
    "reverse",
    "safe",
    "select",
    "selectattr",
    "sort",
    "string",
    "sum",
    "trim",
    "unique",
    "upper",
];

static TEST_NAMES: [&str; 23] = [
    "boolean",
    "defined",
    "divisibleby",
    "eq",
    "equalto",
    "ne",
    "escaped",
    "even",
    "odd",
    "false",
    "true",
    "ge",
    "gt",
    "greaterthan",
    "le",
    "lt",
    "lessthan",
    "in",
    "integer",
    "mapping",
    "none",
    "string",
    "undefined",
];

/// Returns the names of all filters, in the order of their ids.
pub fn filter_names() -> &'static [&'static str]
    ensures { map (λ x. x.now) result.now ≡ flat_map filter_names filters }
{
    &FILTER_NAMES
}

/// Returns the names of all tests, in the order of their ids.
pub fn test_names() -> &'static [&'static str]
    ensures { map (λ x. x.now) result.now ≡ flat_map test_names tests }
{
    &TEST_NAMES
}
