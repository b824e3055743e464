//! Reports failures on standard error.
ghost use Rattle.std.specs.Prelude.{◌≡◌, ◌++◌, None, codes, option_map};
ghost use Rattle.jt_machine.specs.View.{place_view};
ghost use Rattle.jt_turns.specs.Shown.{escape, one_line, shown};
ghost use Rattle.jt_program.specs.Ending.{code_of, status_of};
ghost use Rattle.jt_program.specs.declared.messages.Failure.TheVariants.{Call};
ghost use Rattle.jt_host.specs.Reasons.{reason_text};
ghost use Rattle.jt_program.specs.Reports.{Puts, ReportsFailure, TookUnlessFailed};
ghost use Rattle.jt_program.specs.Reports.{failure_text, fault_line, host_text, refused_line};
ghost use Rattle.jt_program.specs.Reports.{texts_of, use_text, used_line};

use crate::messages::Failure;
use itoa::Buffer;
use jt_host::{CallError, HostError, Reason};
use jt_machine::{Place, Sink, SinkFailed, Used, put_all};
use jt_turns::{hex_digits, limit_text};
use jt_value::Fault;

/// Reports a failure on `errors` and returns the status. If `errors` fails, the status alone
/// reports how the run ended.
pub fn report<E: Sink>(errors: &mut E, failure: &Failure) -> u8
    ensures status { result ≡ code_of (status_of failure.now) }
    // The usage is reported as it is. A fault, a refusal, a spent number, a file and lack of memory
    // are each reported by one line and nothing else.
    ensures reported { ReportsFailure (E.taken errors.old) (E.taken errors.new)
        (E.failed errors.new) failure.now }
{
    match failure {
        Failure::Usage(text) => report_text(errors, text.as_str()),
        Failure::Words => report_line(errors, &["jt: usage"]),
        Failure::Call(error) => report_error(errors, error),
        Failure::Host(error) => report_refusal(errors, Reason::Name(text_of_host(*error))),
        Failure::File(path) => report_line(errors, &["jt: file ", path.as_str()]),
        Failure::Output => report_line(errors, &["jt: file ", "-"]),
    }
    failure.status().code()
}

/// Reports a failure on `errors` as `report` does, and then what the run used. Returns the status.
pub(crate) fn report_run<E: Sink>(errors: &mut E, failure: &Failure, used: Option<Used>) -> u8
    ensures status { result ≡ code_of (status_of failure.now) }
    ensures reported { TookUnlessFailed (failure_text failure.now ++ use_text used)
        (E.taken errors.old) (E.taken errors.new) (E.failed errors.new) }
{
    let status = report(errors, failure);
    if errors.has_failed() {
        return status;
    }
    report_use(errors, used);
    status
}

/// Writes the line of what a run used to `errors`, if that is to be reported.
pub(crate) fn report_use<E: Sink>(errors: &mut E, used: Option<Used>)
    ensures reported { TookUnlessFailed (use_text used) (E.taken errors.old) (E.taken errors.new)
        (E.failed errors.new) }
    ensures silent { used ≡ None → errors.new ≡ errors.old }
{
    match used {
        Some(used) => report_used(errors, used),
        None => {}
    }
}

/// Writes the line of what a run used to `errors`.
fn report_used<E: Sink>(errors: &mut E, used: Used)
    ensures { TookUnlessFailed (used_line used) (E.taken errors.old) (E.taken errors.new)
        (E.failed errors.new) }
{
    let mut fuel = Buffer::new();
    let mut depth = Buffer::new();
    let mut output = Buffer::new();
    let mut size = Buffer::new();
    let mut nesting = Buffer::new();
    let fuel = fuel.format(used.fuel);
    let depth = depth.format(used.depth);
    let output = output.format(used.output);
    let size = size.format(used.size);
    let nesting = nesting.format(used.nesting);
    let numbers = UsedNumbers {
        fuel,
        depth,
        output,
        size,
        nesting,
    };
    report_numbers(errors, &numbers);
}

/// The numbers of the budget that a run used, as texts.
#[derive(Clone, Copy)]
struct UsedNumbers<'a> {
    fuel: &'a str,
    depth: &'a str,
    output: &'a str,
    size: &'a str,
    nesting: &'a str,
}

/// Writes the line of numbers that a run used to `errors`.
fn report_numbers<E: Sink>(errors: &mut E, used: &UsedNumbers<'_>)
    ensures { TookUnlessFailed (one_line (codes "jt: used fuel " ++ (used.now.fuel.now
        ++ (codes " depth " ++ (used.now.depth.now ++ (codes " output " ++ (used.now.output.now
        ++ (codes " size " ++ (used.now.size.now
        ++ (codes " nesting " ++ used.now.nesting.now))))))))))
        (E.taken errors.old) (E.taken errors.new) (E.failed errors.new) }
{
    let UsedNumbers {
        fuel,
        depth,
        output,
        size,
        nesting,
    } = *used;
    report_line(
        errors,
        &[
            "jt: used fuel ",
            fuel,
            " depth ",
            depth,
            " output ",
            output,
            " size ",
            size,
            " nesting ",
            nesting,
        ],
    );
}

/// Writes the line of an error of a call to `errors`.
fn report_error<E: Sink>(errors: &mut E, error: &CallError)
    ensures { ReportsFailure (E.taken errors.old) (E.taken errors.new) (E.failed errors.new)
        (Call error.now) }
{
    match error {
        CallError::Fault(fault, place) => report_fault(errors, *fault, place.as_ref()),
        CallError::Spent(spent) => report_line(errors, &["jt: spent ", limit_text(*spent)]),
        CallError::NoMemory => report_line(errors, &["jt: no memory"]),
        CallError::Image(refusal) => report_refusal(errors, Reason::of_image(*refusal)),
        CallError::Code(refusal) => report_refusal(errors, Reason::of_code(*refusal)),
        CallError::Template(refusal) => report_refusal(errors, Reason::of_compile(refusal)),
        CallError::Context(refusal) => report_refusal(errors, Reason::of_context(*refusal)),
    }
}

/// Returns the code and the name of a refusal of the host.
fn text_of_host(refusal: HostError) -> &'static str
    ensures { result.now ≡ host_text refusal }
{
    match refusal {
        HostError::NoSession => "H1 NoSession",
        HostError::Full => "H2 Full",
        HostError::NoMemory => "H3 NoMemory",
        HostError::NoId => "H4 NoId",
    }
}

/// Writes a text to `errors` unchanged.
fn report_text<E: Sink>(errors: &mut E, text: &str)
    ensures { TookUnlessFailed text.now (E.taken errors.old) (E.taken errors.new)
        (E.failed errors.new) }
{
    let _ = put(errors, text.as_bytes());
}

/// Writes the line of a fault to `errors`, with its place if it has one.
fn report_fault<E: Sink>(errors: &mut E, fault: Fault, place: Option<&Place>)
    ensures { TookUnlessFailed (fault_line fault (option_map (λ q. place_view q.now) place.entry))
        (E.taken errors.old) (E.taken errors.new) (E.failed errors.new) }
{
    let name = fault.text();
    match place {
        None => report_line(errors, &["jt: fault ", name]),
        Some(place) => {
            let mut buffer = Buffer::new();
            let line = buffer.format(place.line);
            report_fault_at(errors, name, place.template.as_str(), line);
        }
    }
}

/// Writes the line of a fault at a place to `errors`.
fn report_fault_at<E: Sink>(errors: &mut E, name: &str, template: &str, line: &str)
    ensures { TookUnlessFailed (one_line (codes "jt: fault " ++ (name.now ++ (codes " in " ++
        (template.now ++ (codes " line " ++ line.now)))))) (E.taken errors.old)
        (E.taken errors.new) (E.failed errors.new) }
{
    report_line(
        errors,
        &["jt: fault ", name, " in ", template, " line ", line],
    );
}

/// Writes the texts of `parts` to `errors` as one line.
fn report_line<E: Sink>(errors: &mut E, parts: &[&str])
    ensures { TookUnlessFailed (one_line (texts_of parts.now)) (E.taken errors.old)
        (E.taken errors.new) (E.failed errors.new) }
{
    let _ = put_line(errors, parts);
}

/// Writes the line of a refusal to `errors`.
fn report_refusal<E: Sink>(errors: &mut E, reason: Reason<'_>)
    ensures { TookUnlessFailed (refused_line (reason_text reason.entry)) (E.taken errors.old)
        (E.taken errors.new) (E.failed errors.new) }
{
    match reason {
        Reason::Name(name) => report_name(errors, name),
        Reason::Point { name, unit, point } => {
            let mut units = Buffer::new();
            let mut points = Buffer::new();
            let unit = units.format(unit);
            let point = points.format(point);
            report_flaw(errors, name, unit, point);
        }
        Reason::Line {
            name,
            template,
            line,
        } => {
            let mut buffer = Buffer::new();
            let line = buffer.format(line);
            report_refusal_at(errors, name, template, line);
        }
    }
}

/// Writes the line of a refusal without a place to `errors`.
fn report_name<E: Sink>(errors: &mut E, name: &str)
    ensures { TookUnlessFailed (refused_line name.now) (E.taken errors.old) (E.taken errors.new)
        (E.failed errors.new) }
{
    report_line(errors, &["jt: refused ", name]);
}

/// Writes the line of a flaw at a point of a unit to `errors`.
fn report_flaw<E: Sink>(errors: &mut E, name: &str, unit: &str, point: &str)
    ensures { TookUnlessFailed (refused_line (name.now ++ (codes " unit " ++ (unit.now ++
        (codes " point " ++ point.now))))) (E.taken errors.old) (E.taken errors.new)
        (E.failed errors.new) }
{
    report_line(
        errors,
        &["jt: refused ", name, " unit ", unit, " point ", point],
    );
}

/// Writes the line of a refusal at a line of a template to `errors`.
fn report_refusal_at<E: Sink>(errors: &mut E, name: &str, template: &str, line: &str)
    ensures { TookUnlessFailed (refused_line (name.now ++ (codes " in " ++ (template.now ++
        (codes " line " ++ line.now))))) (E.taken errors.old) (E.taken errors.new)
        (E.failed errors.new) }
{
    report_line(
        errors,
        &["jt: refused ", name, " in ", template, " line ", line],
    );
}

/// Writes the texts of `parts` as one line.
fn put_line<E: Sink>(errors: &mut E, parts: &[&str]) -> Result<(), SinkFailed>
    ensures { Puts (one_line (texts_of parts.now)) (E.taken errors.old) (E.taken errors.new)
        (E.failed errors.new) result }
{
    for part in parts {
        put_escaped(errors, part.as_bytes())?;
    }
    put(errors, b"\n")
}

/// Writes a text as a line shows it, with its control characters escaped.
fn put_escaped<E: Sink>(errors: &mut E, text: &[u8]) -> Result<(), SinkFailed>
    ensures { Puts (shown text.now) (E.taken errors.old) (E.taken errors.new)
        (E.failed errors.new) result }
{
    // All bytes before `plain` are written. The bytes from `plain` to `at` are shown unchanged.
    let mut plain = 0;
    for (at, byte) in text.iter().enumerate() {
        if byte.is_ascii_control() {
            put(errors, &text[plain..at])?;
            put_escape(errors, *byte)?;
            plain = at + 1;
        }
    }
    put(errors, &text[plain..])
}

/// Writes the escape of a control character.
fn put_escape<E: Sink>(errors: &mut E, byte: u8) -> Result<(), SinkFailed>
    ensures { Puts (escape byte) (E.taken errors.old) (E.taken errors.new) (E.failed errors.new)
        result }
{
    let (high, low) = hex_digits(byte);
    put(errors, b"\\x")?;
    put(errors, high.as_bytes())?;
    put(errors, low.as_bytes())
}

/// Writes bytes unchanged.
fn put<E: Sink>(errors: &mut E, bytes: &[u8]) -> Result<(), SinkFailed>
    ensures { Puts bytes.now (E.taken errors.old) (E.taken errors.new) (E.failed errors.new)
        result }
{
    put_all(errors, bytes)
}
