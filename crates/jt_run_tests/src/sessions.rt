//! Tests hosts, call by call.

use crate::rows::rows_hold;
use crate::source::verified_of;
use jt_args::DEFAULT;
use jt_host::Host;
use jt_value::Context;
use std::alloc::Global;
use std::test::Fail;

// Opens `count` sessions of a source, and returns the results.
fn opened(alloc: Global, host: &mut Host, count: u32, source: &str) -> Result<String, Fail> {
    let mut answers = String::new(alloc);
    for number in 0..count {
        if number > 0 {
            answers.push(' ')?;
        }
        let verified = verified_of(alloc, source)?;
        let answer = match host.open(verified, &Context::new(alloc), DEFAULT) {
            Ok(id) => format!(in alloc; "{id}")?,
            Err((_, refusal)) => format!(in alloc; "{refusal:?}")?,
        };
        answers.push_str(answer.as_str())?;
    }
    Ok(answers)
}

// Runs `count` turns of one instruction of a session, and returns the result of the last turn.
fn turned(alloc: Global, host: &mut Host, count: u32, id: u64) -> Result<String, Fail> {
    let mut answer = host.turn(id, 0);
    for _ in 0..count {
        answer = host.turn(id, 1);
    }
    Ok(format!(in alloc; "{answer:?}")?)
}

// Makes one call of a host, and returns its result. `open 3 x` opens three sessions of the source
// `x`. `turn 3 1` runs three turns of one instruction of session 1, and `slice 3 1` one turn of
// three. `outcome 1` and `close 1` are calls on session 1.
fn answered(alloc: Global, host: &mut Host, call: &str) -> Result<String, Fail> {
    let (name, of) = call.split_once(" ").ok_or("a call has no session")?;
    let (count, behind) = of.split_once(" ").unwrap_or(("1", of));
    match name {
        "open" => opened(alloc, host, count.parse::<u32>()?, behind),
        "turn" => turned(alloc, host, count.parse::<u32>()?, behind.parse::<u64>()?),
        "slice" => {
            let answer = host.turn(behind.parse::<u64>()?, count.parse::<u32>()?);
            Ok(format!(in alloc; "{answer:?}")?)
        }
        "outcome" => Ok(format!(in alloc; "{:?}", host.outcome(of.parse::<u64>()?))?),
        _ => Ok(format!(in alloc; "{:?}", host.close(of.parse::<u64>()?))?),
    }
}

// Makes the calls of a row on a new host, in order, and returns their results.
fn all_answered(alloc: Global, calls: &str) -> Result<String, Fail> {
    let mut host = Host::new(alloc);
    let mut answers = String::new(alloc);
    for call in calls.split("; ") {
        answers.push_str(answered(alloc, &mut host, call)?.as_str())?;
        answers.push(';')?;
    }
    Ok(answers)
}

#[test]
fn hosts_run_sessions(rt: HostRuntime) -> Result<(), Fail> {
    rows_hold(
        &rt,
        all_answered,
        r#"open 1 {% set x = 1 %}{% for i in [1, 2] %}{{ x }}{% set x = 9 %}{% endfor %}{{ x }}; turn 1 1; turn 199 1; outcome 1; close 1; close 1 => 1;Ok(Going);Ok(Done);Ok(Some(Text("111")));Ok(Some(Text("111")));Err(NoSession);
        open 2 {{ nope.x }}; turn 9 2; turn 9 2; outcome 2; outcome 1; close 1; close 2 => 1 2;Ok(Done);Ok(Done);Ok(Some(Fault(Undefined, Some(Place { template: "t", line: 1 }))));Ok(None);Ok(None);Ok(Some(Fault(Undefined, Some(Place { template: "t", line: 1 }))));
        open 64 x; open 1 x; close 1; open 1 x; slice 5 1; close 65; open 1 x; turn 1 1; outcome 1; close 0; outcome 2 => 1 2 3 4 5 6 7 8 9 10 11 12 13 14 15 16 17 18 19 20 21 22 23 24 25 26 27 28 29 30 31 32 33 34 35 36 37 38 39 40 41 42 43 44 45 46 47 48 49 50 51 52 53 54 55 56 57 58 59 60 61 62 63 64;Full;Ok(None);65;Err(NoSession);Ok(None);66;Err(NoSession);Err(NoSession);Err(NoSession);Ok(None);
        open 1 {% for i in [1, 2] %}{{ i }}{% endfor %}; slice 5 1; outcome 1; slice 99 1; outcome 1; slice 5 1 => 1;Ok(Going);Ok(None);Ok(Done);Ok(Some(Text("12")));Ok(Done);"#,
    )
}
