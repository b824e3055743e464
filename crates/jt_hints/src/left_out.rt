//! Looks up what to write in place of Jinja's filters, tests and functions that the
//! language leaves out, of the methods of Python's values, and of characters that begin no token.

ghost use Rattle.std.specs.Prelude.{◌≡◌, map, option_map};
ghost use Rattle.jt_hints.specs.LeftOut as table;

/// A name, and what to write in its place.
type Row = (&'static str, &'static str);

static FILTERS: [Row; 20] = [
    ("batch", "the host passes a list of lists"),
    ("center", "the host pads the text"),
    ("filesizeformat", "the host passes the size as a text"),
    (
        "float",
        "numbers are whole, and the host passes fractions as texts",
    ),
    ("format", "join the parts by ~, as in a ~ \" of \" ~ b"),
    (
        "groupby",
        "the host passes the groups, or loop.previtem shows where one begins",
    ),
    ("indent", "the host indents the text"),
    ("pprint", "print a list by join, and a map by a loop"),
    ("random", "the host passes the chosen item"),
    ("round", "numbers are whole: // divides and rounds down"),
    ("slice", "the host passes a list of lists"),
    ("striptags", "the host removes the tags"),
    (
        "title",
        "the host passes the title; capitalize changes the first character of a text",
    ),
    ("tojson", "the host passes the JSON as a text"),
    ("truncate", "the host shortens the text"),
    ("urlencode", "the host encodes the text"),
    (
        "urlize",
        "the host makes the links, and the filter safe prints them",
    ),
    ("wordcount", "the host counts the words"),
    ("wordwrap", "the host wraps the lines"),
    ("xmlattr", "write each attribute of the element"),
];

static TESTS: [Row; 10] = [
    (
        "callable",
        "macros, range, super and self are called by name, and nothing else is callable",
    ),
    ("filter", "which filters exist is known: leave the test out"),
    ("float", "numbers are whole: leave the test out"),
    (
        "iterable",
        "tell values apart by the tests mapping, string, integer and none",
    ),
    ("lower", "compare with the filter, as in x == x|lower"),
    (
        "number",
        "numbers are whole: the test integer is true for all",
    ),
    (
        "sameas",
        "use == or, for truth values, the tests true and false",
    ),
    (
        "sequence",
        "tell values apart by the tests mapping, string, integer and none",
    ),
    ("test", "which tests exist is known: leave the test out"),
    ("upper", "compare with the filter, as in x == x|upper"),
];

static FUNCTIONS: [Row; 10] = [
    (
        "caller",
        "pass the body as an argument, kept by a set block",
    ),
    (
        "cycler",
        "in a loop, loop.cycle(..) takes its arguments in turn",
    ),
    ("dict", "a map is written as {\"a\": 1}"),
    ("gettext", "the host passes the translated texts"),
    ("joiner", "use the filter join, or loop.last"),
    ("lipsum", "the host passes the text"),
    (
        "namespace",
        "a set in a loop ends with its turn: use filters such as sum, select and map",
    ),
    ("ngettext", "the host passes the translated texts"),
    ("now", "the host passes the time in the context"),
    ("_", "the host passes the translated texts"),
];

static CHARACTERS: [Row; 8] = [
    ("!", "write not, or != between two values"),
    ("#", "a comment is written {# .. #}"),
    ("&", "write and"),
    ("/", "numbers are whole: // divides and rounds down"),
    (";", "a tag has one statement or expression"),
    ("?", "write a if x else b"),
    ("^", "the power is **"),
    ("`", "a text stands in \" or '"),
];

static LOOP_FIELDS: [Row; 8] = [
    (
        "changed",
        "compare with the item before, as in x != loop.previtem",
    ),
    ("counter", "the number of a turn is loop.index"),
    ("counter0", "the number of a turn, from 0, is loop.index0"),
    ("depth", "loops are not recursive: leave it out"),
    ("depth0", "loops are not recursive: leave it out"),
    ("idx", "the number of a turn is loop.index"),
    (
        "parentloop",
        "before the inner loop, keep what it needs, as in {% set outer = loop.index %}",
    ),
    (
        "revcounter",
        "the number of turns that are left is loop.revindex",
    ),
];

static METHODS: [Row; 34] = [
    ("append", "join lists by +, as in xs + [x]"),
    ("capitalize", "write the filter, as in x|capitalize"),
    (
        "copy",
        "values are never changed in place: leave the call out",
    ),
    (
        "count",
        "count items by select and length, as in xs|select(\"eq\", x)|length",
    ),
    ("decode", "the host passes the text"),
    ("encode", "the host passes the text"),
    (
        "endswith",
        "for one character write x|last == \"a\"; for more, the host passes the answer",
    ),
    ("extend", "join lists by +, as in xs + ys"),
    (
        "find",
        "write \"a\" in x, which is whether x contains the text",
    ),
    ("format", "join the parts by ~, as in a ~ \" of \" ~ b"),
    (
        "get",
        "write x[\"k\"]|default(\"-\"), since a missing item is undefined",
    ),
    ("index", "write a loop, whose loop.index0 is the position"),
    ("insert", "join lists by +, as in [x] + xs"),
    ("isdigit", "the host passes the answer"),
    ("isoformat", "the host passes the date as a text"),
    ("items", "write the filter, as in x|items"),
    ("join", "write the filter, as in xs|join(\", \")"),
    ("keys", "write x|list: the items of a map are its keys"),
    ("lower", "write the filter, as in x|lower"),
    (
        "lstrip",
        "write x|trim, which removes whitespace at both ends",
    ),
    (
        "pop",
        "values are never changed in place: write x|first, x|last or x[0]",
    ),
    ("replace", "write the filter, as in x|replace(\"a\", \"b\")"),
    ("reverse", "write the filter, as in xs|reverse"),
    (
        "rstrip",
        "write x|trim, which removes whitespace at both ends",
    ),
    ("sort", "write the filter, as in xs|sort"),
    ("split", "the host passes a list"),
    ("splitlines", "the host passes a list"),
    (
        "startswith",
        "for one character write x|first == \"a\"; for more, the host passes the answer",
    ),
    ("strftime", "the host passes the date as a text"),
    ("strip", "write the filter, as in x|trim"),
    (
        "title",
        "the host passes the title; capitalize changes the first character of a text",
    ),
    (
        "update",
        "values are never changed in place: the host passes the whole map",
    ),
    ("upper", "write the filter, as in x|upper"),
    ("values", "write x|items|map(\"last\")"),
];

/// Returns the sentence of the row with this name, if there is one.
fn sentence_in(rows: &[Row], name: &str) -> Option<&'static str>
    ensures { option_map (λ s. s.now) result
        ≡ table.sentence_in (map (λ row. (row.0.now, row.1.now)) rows.now) name.now }
{
    for (word, sentence) in rows {
        if name == *word {
            return Some(*sentence);
        }
    }
    None
}

/// Returns what to write in place of a filter of Jinja, or `None` if the name is none that the
/// language leaves out.
pub fn left_out_filter(name: &str) -> Option<&'static str>
    ensures { option_map (λ s. s.now) result ≡ table.left_out_filter name.now }
{
    sentence_in(&FILTERS, name)
}

/// Returns what to write in place of a test of Jinja, or `None` if the name is none that the
/// language leaves out.
pub fn left_out_test(name: &str) -> Option<&'static str>
    ensures { option_map (λ s. s.now) result ≡ table.left_out_test name.now }
{
    sentence_in(&TESTS, name)
}

/// Returns what to write in place of a function of Jinja, or `None` if the name is none that the
/// language leaves out.
pub fn left_out_function(name: &str) -> Option<&'static str>
    ensures { option_map (λ s. s.now) result ≡ table.left_out_function name.now }
{
    sentence_in(&FUNCTIONS, name)
}

/// Returns what to write in place of a field that `loop` has in Jinja, or in other template
/// languages.
pub fn left_out_loop_field(name: &str) -> Option<&'static str>
    ensures { option_map (λ x. x.now) result ≡ table.left_out_loop_field name.now }
{
    sentence_in(&LOOP_FIELDS, name)
}

/// Returns what to write in place of a method of Python's texts, lists and maps, or `None` for
/// another name.
pub fn left_out_method(name: &str) -> Option<&'static str>
    ensures { option_map (λ s. s.now) result ≡ table.left_out_method name.now }
{
    sentence_in(&METHODS, name)
}

/// Returns what to write in place of a character that begins no token, or `None` for another one.
pub fn left_out_character(character: &str) -> Option<&'static str>
    ensures { option_map (λ s. s.now) result ≡ table.left_out_character character.now }
{
    sentence_in(&CHARACTERS, character)
}
