//! Reads the first tags of statements, token by token.

ghost use Rattle.std.specs.Prelude.{◌≡◌, ℕ, [], map, option_map, string_bytes, codes};
ghost use Rattle.std.specs.Str.{chars};
ghost use Rattle.jt_scan.specs.View.{token_view};
ghost use Rattle.jt_scan.specs.declared.segment.Sign.TheVariants as sign;
ghost use Rattle.jt_ast.specs.Expressions.{levels as tree_levels};
ghost use Rattle.jt_expr.specs.Grammar.{whole, Spells};
ghost use Rattle.jt_expr.specs.Promises.{EndsAt, OpensNone, level_of_form};
ghost use Rattle.jt_ast.specs.ExpressionView.{expr_view, literal_view};
ghost use Rattle.jt_expr.specs.Cursor.{ahead};
ghost use Rattle.jt_scan.specs.Words.{letters_of};
ghost use Rattle.jt_ast.specs.Statements.{condition_levels};
ghost use Rattle.jt_parse.specs.Tags.{Separated, IsName, IsValue, IsFilterCall, IsParameter};
ghost use Rattle.jt_parse.specs.Tags.{IsImported};
ghost use Rattle.jt_parse.specs.Tags.{Parameters, Condition, Context, missing_words, defaults_last};
ghost use Rattle.jt_parse.specs.internal.Readers.{TakesForm, TakesFlat, TakesHead};
ghost use Rattle.jt_parse.specs.internal.Readers.{Anything, GivesPair, GivesText, IsDefault};
ghost use Rattle.jt_parse.specs.internal.Readers.{IsGiven};
ghost use Rattle.jt_parse.specs.internal.Readers.{IsLiteral, IsText, IsWithout, NoImported};
ghost use Rattle.jt_parse.specs.internal.Readers.{NoParameter};
ghost use Rattle.jt_parse.specs.internal.Readers.{NoSign, NoToken, NoWord, ReadsHead, TakesWord};
ghost use Rattle.jt_parse.specs.internal.Readers.{most};
ghost use Rattle.jt_parse.specs.internal.Readers.{one_filter_call_levels, value_levels};
ghost use Rattle.jt_ast.specs.StatementView.{is_ignored, passes_context, names_view, given_view};
ghost use Rattle.jt_ast.specs.StatementView.{filter_call_view, filter_calls_view, parameter_view};
ghost use Rattle.jt_ast.specs.StatementView.{parameters_view};
ghost use Rattle.jt_parse.specs.internal.HeadView.{value_view, values_view, imported_view};

use crate::opening_tags::{BlockStart, Head, LoopHead};
use jt_ast::{Expr, FilterCall, IncludeContext, Literal, Missing, Parameter, Stmt};
use jt_expr::{
    Cursor, ExprError, LeveledExpr, LeveledList, NestedForm, arguments, copy_of, literal_of, read,
};
use jt_scan::{Sign, Token, is_word, text_value};
use std::alloc::Global;

/// Takes the word, or refuses if it is not the next token.
fn expect_word(cursor: &mut Cursor<'_>, word: &str) -> Result<(), ExprError>
    ensures { TakesWord (letters_of word.now) (ahead cursor.old) result (ahead cursor.new) }
{
    if cursor.eat_word(word) {
        Ok(())
    } else {
        Err(ExprError::Syntax)
    }
}

/// Reads a name.
fn target(alloc: Global, cursor: &mut Cursor<'_>) -> Result<String, ExprError>
    ensures { TakesFlat string_bytes IsName Anything cursor.old result cursor.new }
{
    let name = cursor.name()?;
    Ok(copy_of(alloc, name)?)
}

/// Reads the targets `a, b`.
fn targets(alloc: Global, cursor: &mut Cursor<'_>) -> Result<Vec<String>, ExprError>
    ensures { TakesFlat (λ v. names_view v.items) (Separated IsName sign.Comma)
        (NoSign sign.Comma) cursor.old result cursor.new }
{
    let mut found = Vec::new(alloc);
    for _turn in 0..cursor.left() {
        let name = target(alloc, cursor)?;
        found.push(name)?;
        if !cursor.eat(Sign::Comma) {
            return Ok(found);
        }
    }
    Err(ExprError::Syntax)
}

/// Reads an expression of at most `levels` levels.
fn expression(
    alloc: Global,
    cursor: &mut Cursor<'_>,
    levels: u8,
    form: NestedForm,
) -> Result<Expr, ExprError>
    ensures { TakesForm expr_view (Spells (level_of_form form)) (EndsAt (level_of_form form))
        tree_levels levels cursor.old result cursor.new }
{
    let LeveledExpr { expr, .. } = read(alloc, cursor, levels, form)?;
    Ok(Box::into_inner(expr))
}

/// Reads `a = e`.
fn value(alloc: Global, cursor: &mut Cursor<'_>, levels: u8) -> Result<(String, Expr), ExprError>
    ensures { TakesForm value_view IsValue (EndsAt whole) value_levels levels cursor.old
        result cursor.new }
{
    let name = target(alloc, cursor)?;
    cursor.expect(Sign::Assign)?;
    let value = expression(alloc, cursor, levels, NestedForm::Whole)?;
    Ok((name, value))
}

/// Reads `a = e, b = f`.
fn values(
    alloc: Global,
    cursor: &mut Cursor<'_>,
    levels: u8,
) -> Result<Vec<(String, Expr)>, ExprError>
    ensures { TakesForm (λ v. values_view v.items) (Separated IsValue sign.Comma) NoToken
        (most value_levels) levels cursor.old result cursor.new }
{
    let mut found = Vec::new(alloc);
    for _turn in 0..cursor.left() {
        let one = value(alloc, cursor, levels)?;
        found.push(one)?;
        if !cursor.eat(Sign::Comma) {
            return Ok(found);
        }
    }
    Err(ExprError::Syntax)
}

/// Reads `f(a)`.
fn filter_call(alloc: Global, cursor: &mut Cursor<'_>, levels: u8) -> Result<FilterCall, ExprError>
    ensures { TakesForm filter_call_view IsFilterCall OpensNone one_filter_call_levels levels
        cursor.old result cursor.new }
{
    let name = target(alloc, cursor)?;
    let LeveledList { items, pairs, .. } = arguments(alloc, cursor, levels)?;
    Ok(FilterCall {
        name,
        arguments: items,
        keywords: pairs,
    })
}

/// Reads `f(a)|g`.
fn filter_calls(
    alloc: Global,
    cursor: &mut Cursor<'_>,
    levels: u8,
) -> Result<Vec<FilterCall>, ExprError>
    ensures { TakesForm (λ v. filter_calls_view v.items) (Separated IsFilterCall sign.Pipe) NoToken
        (most one_filter_call_levels) levels cursor.old result cursor.new }
{
    let mut found = Vec::new(alloc);
    for _turn in 0..cursor.left() {
        let one = filter_call(alloc, cursor, levels)?;
        found.push(one)?;
        if !cursor.eat(Sign::Pipe) {
            return Ok(found);
        }
    }
    Err(ExprError::Syntax)
}

/// Reads a number, a text or a constant.
fn literal(alloc: Global, cursor: &mut Cursor<'_>) -> Result<Literal, ExprError>
    ensures { TakesFlat literal_view IsLiteral Anything cursor.old result cursor.new }
{
    match cursor.take() {
        Some(Token::Number(number)) => Ok(Literal::Number(number)),
        Some(Token::Text(raw)) => Ok(Literal::Text(text_value(alloc, raw)?)),
        Some(Token::Name(word)) => match literal_of(word) {
            Some(literal) => Ok(literal),
            None => Err(ExprError::Syntax),
        },
        _ => Err(ExprError::Syntax),
    }
}

/// Reads the default of a parameter, if it has one.
fn default_of(alloc: Global, cursor: &mut Cursor<'_>) -> Result<Option<Literal>, ExprError>
    ensures { TakesFlat (option_map literal_view) IsDefault (NoSign sign.Assign)
        cursor.old result cursor.new }
{
    if !cursor.eat(Sign::Assign) {
        return Ok(None);
    }
    let default = literal(alloc, cursor)?;
    Ok(Some(default))
}

/// Reads `a` or `a = 1`.
fn parameter(alloc: Global, cursor: &mut Cursor<'_>) -> Result<Parameter, ExprError>
    ensures { TakesFlat parameter_view IsParameter (NoSign sign.Assign) cursor.old result
        cursor.new }
{
    let name = target(alloc, cursor)?;
    let default = default_of(alloc, cursor)?;
    Ok(Parameter { name, default })
}

/// Reads `a, b = 1`.
fn parameter_row(alloc: Global, cursor: &mut Cursor<'_>) -> Result<Vec<Parameter>, ExprError>
    ensures { TakesFlat (λ v. parameters_view v.items) (Separated IsParameter sign.Comma)
        NoParameter cursor.old result cursor.new }
{
    let mut found = Vec::new(alloc);
    for _turn in 0..cursor.left() {
        let one = parameter(alloc, cursor)?;
        found.push(one)?;
        if !cursor.eat(Sign::Comma) {
            return Ok(found);
        }
    }
    Err(ExprError::Syntax)
}

/// Returns whether no parameter without a default follows one with a default.
fn defaults_are_last(parameters: &[Parameter]) -> bool
    ensures { result ≡ defaults_last (parameters_view parameters.now) }
{
    let mut defaults = false;
    for parameter in parameters {
        if parameter.default.is_some() {
            defaults = true;
        } else if defaults {
            return false;
        }
    }
    true
}

/// Reads the parameters of a macro and the closing parenthesis.
fn parameters(alloc: Global, cursor: &mut Cursor<'_>) -> Result<Vec<Parameter>, ExprError>
    ensures { TakesFlat (λ v. parameters_view v.items) Parameters Anything cursor.old result
        cursor.new }
{
    if cursor.eat(Sign::RightParen) {
        return Ok(Vec::new(alloc));
    }
    let found = parameter_row(alloc, cursor)?;
    cursor.expect(Sign::RightParen)?;
    if !defaults_are_last(&found) {
        return Err(ExprError::Syntax);
    }
    Ok(found)
}

/// Reads the condition of a loop, if it has one.
fn condition(alloc: Global, cursor: &mut Cursor<'_>, levels: u8) -> Result<Option<Expr>, ExprError>
    ensures { TakesForm (option_map expr_view) Condition NoToken condition_levels levels
        cursor.old result cursor.new }
{
    if !cursor.eat_word("if") {
        return Ok(None);
    }
    let found = expression(alloc, cursor, levels, NestedForm::Whole)?;
    Ok(Some(found))
}

/// Reads a text literal.
fn text(alloc: Global, cursor: &mut Cursor<'_>) -> Result<String, ExprError>
    ensures { TakesFlat string_bytes IsText Anything cursor.old result cursor.new }
{
    match cursor.take() {
        Some(Token::Text(raw)) => Ok(text_value(alloc, raw)?),
        _ => Err(ExprError::Syntax),
    }
}

/// Reads `ignore missing`, or nothing.
fn missing(cursor: &mut Cursor<'_>) -> Result<Missing, ExprError>
    ensures { TakesFlat is_ignored (λ b x. x ≡ missing_words b) (NoWord (codes "ignore"))
        cursor.old result cursor.new }
{
    if !cursor.eat_word("ignore") {
        return Ok(Missing::Refused);
    }
    expect_word(cursor, "missing")?;
    Ok(Missing::Ignored)
}

/// Reads `with context`, `without context`, or nothing.
fn context(cursor: &mut Cursor<'_>) -> Result<IncludeContext, ExprError>
    ensures { TakesFlat passes_context Context NoToken cursor.old result cursor.new }
{
    if cursor.eat_word("with") {
        expect_word(cursor, "context")?;
        return Ok(IncludeContext::Seen);
    }
    if cursor.eat_word("without") {
        expect_word(cursor, "context")?;
        return Ok(IncludeContext::Hidden);
    }
    Ok(IncludeContext::Seen)
}

/// Reads `if c`, after its first word.
fn if_head(alloc: Global, cursor: &mut Cursor<'_>, levels: u8) -> Result<Head, ExprError>
    ensures { (line : ℕ) → TakesHead line levels (codes "if") cursor.old result cursor.new }
{
    let condition = expression(alloc, cursor, levels, NestedForm::Whole)?;
    Ok(Head::If(condition))
}

/// Reads `for a, b in e if c`, after its first word.
fn for_head(alloc: Global, cursor: &mut Cursor<'_>, levels: u8) -> Result<Head, ExprError>
    ensures { (line : ℕ) → TakesHead line levels (codes "for") cursor.old result cursor.new }
{
    let targets = targets(alloc, cursor)?;
    expect_word(cursor, "in")?;
    let over = expression(alloc, cursor, levels, NestedForm::Disjunction)?;
    let condition = condition(alloc, cursor, levels)?;
    Ok(Head::Loop(LoopHead {
        targets,
        over,
        condition,
    }))
}

/// Returns the only target of a `set` that captures its body, and refuses several targets.
fn only_name(names: Vec<String>) -> Result<Head, ExprError>
    ensures { GivesText (names_view names.items) result }
{
    let mut names = names;
    let Some(name) = names.pop() else {
        return Err(ExprError::Syntax);
    };
    if names.is_empty() {
        Ok(Head::BlockStart(BlockStart::Text(name)))
    } else {
        Err(ExprError::Syntax)
    }
}

/// Reads `set a, b = e` or `set a`, after its first word.
fn set_head(
    alloc: Global,
    cursor: &mut Cursor<'_>,
    levels: u8,
    line: u32,
) -> Result<Head, ExprError>
    ensures { TakesHead line levels (codes "set") cursor.old result cursor.new }
{
    let targets = targets(alloc, cursor)?;
    if !cursor.eat(Sign::Assign) {
        return only_name(targets);
    }
    let value = expression(alloc, cursor, levels, NestedForm::Whole)?;
    Ok(Head::Statement(Stmt::Set {
        line,
        targets,
        value,
    }))
}

/// Reads `with a = e, b = f`, after its first word.
fn with_head(alloc: Global, cursor: &mut Cursor<'_>, levels: u8) -> Result<Head, ExprError>
    ensures { (line : ℕ) → TakesHead line levels (codes "with") cursor.old result cursor.new }
{
    if cursor.left() == 0 {
        return Ok(Head::BlockStart(BlockStart::Values(Vec::new(alloc))));
    }
    let found = values(alloc, cursor, levels)?;
    Ok(Head::BlockStart(BlockStart::Values(found)))
}

/// Reads `filter f(a)|g`, after its first word.
fn filter_head(alloc: Global, cursor: &mut Cursor<'_>, levels: u8) -> Result<Head, ExprError>
    ensures { (line : ℕ) → TakesHead line levels (codes "filter") cursor.old result cursor.new }
{
    let found = filter_calls(alloc, cursor, levels)?;
    Ok(Head::BlockStart(BlockStart::Filters(found)))
}

/// Reads `autoescape true` or `autoescape false`, after its first word.
fn autoescape_head(cursor: &mut Cursor<'_>) -> Result<Head, ExprError>
    ensures { (line limit : ℕ) → TakesHead line limit (codes "autoescape") cursor.old result
        cursor.new }
{
    if cursor.eat_word("true") {
        return Ok(Head::BlockStart(BlockStart::Escaping(true)));
    }
    if cursor.eat_word("false") {
        return Ok(Head::BlockStart(BlockStart::Escaping(false)));
    }
    Err(ExprError::Syntax)
}

/// Reads `macro f(a, b=1)`, after its first word.
fn macro_head(alloc: Global, cursor: &mut Cursor<'_>) -> Result<Head, ExprError>
    ensures { (line limit : ℕ) → TakesHead line limit (codes "macro") cursor.old result cursor.new }
{
    let name = target(alloc, cursor)?;
    cursor.expect(Sign::LeftParen)?;
    let found = parameters(alloc, cursor)?;
    Ok(Head::BlockStart(BlockStart::Macro(name, found)))
}

/// Reads `include "x" ignore missing without context`, after its first word.
fn include_head(alloc: Global, cursor: &mut Cursor<'_>, line: u32) -> Result<Head, ExprError>
    ensures { (limit : ℕ) → TakesHead line limit (codes "include") cursor.old result cursor.new }
{
    let name = text(alloc, cursor)?;
    let missing = missing(cursor)?;
    let names = context(cursor)?;
    Ok(Head::Statement(Stmt::Include {
        line,
        name,
        missing,
        names,
    }))
}

/// Reads the name after `as`, if there is one.
fn given(alloc: Global, cursor: &mut Cursor<'_>) -> Result<Option<String>, ExprError>
    ensures { TakesFlat (option_map string_bytes) IsGiven (NoWord (codes "as"))
        cursor.old result cursor.new }
{
    if !cursor.eat_word("as") {
        return Ok(None);
    }
    let name = target(alloc, cursor)?;
    Ok(Some(name))
}

/// Returns a macro's name with the name that it is bound to, which defaults to its own name.
fn given_or(
    alloc: Global,
    name: String,
    given: Option<String>,
) -> Result<(String, String), ExprError>
    ensures { GivesPair (string_bytes name) (option_map string_bytes given) result }
{
    match given {
        Some(given) => Ok((name, given)),
        None => {
            let same = copy_of(alloc, &name)?;
            Ok((name, same))
        }
    }
}

/// Reads `a` or `a as b`.
fn imported(alloc: Global, cursor: &mut Cursor<'_>) -> Result<(String, String), ExprError>
    ensures { TakesFlat imported_view IsImported (NoWord (codes "as")) cursor.old result
        cursor.new }
{
    let name = target(alloc, cursor)?;
    let given = given(alloc, cursor)?;
    given_or(alloc, name, given)
}

/// Reads `a, b as c`.
fn imported_row(alloc: Global, cursor: &mut Cursor<'_>) -> Result<Vec<(String, String)>, ExprError>
    ensures { TakesFlat (λ v. given_view v.items) (Separated IsImported sign.Comma)
        NoImported cursor.old result cursor.new }
{
    let mut found = Vec::new(alloc);
    for _turn in 0..cursor.left() {
        let one = imported(alloc, cursor)?;
        found.push(one)?;
        if !cursor.eat(Sign::Comma) {
            return Ok(found);
        }
    }
    Err(ExprError::Syntax)
}

/// Reads `without context`, and returns whether it was there.
fn without(cursor: &mut Cursor<'_>) -> Result<bool, ExprError>
    ensures { TakesFlat (λ b. b) IsWithout (NoWord (codes "without")) cursor.old result cursor.new }
{
    if !cursor.eat_word("without") {
        return Ok(false);
    }
    expect_word(cursor, "context")?;
    Ok(true)
}

/// Reads `import "x" as f without context`, after its first word.
fn import_head(alloc: Global, cursor: &mut Cursor<'_>, line: u32) -> Result<Head, ExprError>
    ensures { (limit : ℕ) → TakesHead line limit (codes "import") cursor.old result cursor.new }
{
    let library = text(alloc, cursor)?;
    expect_word(cursor, "as")?;
    let name = target(alloc, cursor)?;
    let _said = without(cursor)?;
    Ok(Head::Statement(Stmt::Import {
        line,
        library,
        name,
    }))
}

/// Reads `from "x" import a, b as c without context`, after its first word.
fn from_head(alloc: Global, cursor: &mut Cursor<'_>, line: u32) -> Result<Head, ExprError>
    ensures { (limit : ℕ) → TakesHead line limit (codes "from") cursor.old result cursor.new }
{
    let library = text(alloc, cursor)?;
    expect_word(cursor, "import")?;
    let macros = imported_row(alloc, cursor)?;
    let _said = without(cursor)?;
    Ok(Head::Statement(Stmt::From {
        line,
        library,
        macros,
    }))
}

/// Reads `extends "x"`, after its first word.
fn extends_head(alloc: Global, cursor: &mut Cursor<'_>, line: u32) -> Result<Head, ExprError>
    ensures { (limit : ℕ) → TakesHead line limit (codes "extends") cursor.old result cursor.new }
{
    let name = text(alloc, cursor)?;
    Ok(Head::Statement(Stmt::Extends(line, name)))
}

/// Reads `block b scoped required`, after its first word.
fn block_head(alloc: Global, cursor: &mut Cursor<'_>) -> Result<Head, ExprError>
    ensures { (line limit : ℕ) → TakesHead line limit (codes "block") cursor.old result cursor.new }
{
    let name = target(alloc, cursor)?;
    let scoped = cursor.eat_word("scoped");
    let required = cursor.eat_word("required");
    Ok(Head::BlockStart(BlockStart::Block {
        name,
        scoped,
        required,
    }))
}

/// Reads the first tag of a statement, after its first word.
fn head(
    alloc: Global,
    cursor: &mut Cursor<'_>,
    levels: u8,
    line: u32,
    word: &str,
) -> Result<Head, ExprError>
    ensures { TakesHead line levels (chars word.now) cursor.old result cursor.new }
{
    if is_word(word, "if") {
        if_head(alloc, cursor, levels)
    } else if is_word(word, "for") {
        for_head(alloc, cursor, levels)
    } else if is_word(word, "set") {
        set_head(alloc, cursor, levels, line)
    } else if is_word(word, "with") {
        with_head(alloc, cursor, levels)
    } else if is_word(word, "filter") {
        filter_head(alloc, cursor, levels)
    } else if is_word(word, "autoescape") {
        autoescape_head(cursor)
    } else if is_word(word, "macro") {
        macro_head(alloc, cursor)
    } else if is_word(word, "include") {
        include_head(alloc, cursor, line)
    } else if is_word(word, "extends") {
        extends_head(alloc, cursor, line)
    } else if is_word(word, "block") {
        block_head(alloc, cursor)
    } else if is_word(word, "import") {
        import_head(alloc, cursor, line)
    } else if is_word(word, "from") {
        from_head(alloc, cursor, line)
    } else {
        Err(ExprError::Syntax)
    }
}

/// Reads the first tag of a statement, given its first word and all tokens after it.
pub(crate) fn read_head(
    alloc: Global,
    word: &str,
    tokens: &[Token<'_>],
    levels: u8,
    line: u32,
) -> Result<Head, ExprError>
    ensures { ReadsHead line levels (chars word.now) (map token_view tokens.now) result [] }
{
    let mut cursor = Cursor::new(tokens);
    let found = head(alloc, &mut cursor, levels, line, word)?;
    if cursor.left() > 0 {
        drop(found);
        return Err(ExprError::Syntax);
    }
    Ok(found)
}
