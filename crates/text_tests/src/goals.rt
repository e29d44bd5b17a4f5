use crate::parts::{put_number, put_numbers};
use crate::samples::{TRUCKS, TRUCKS_PROBLEM};
use crate::typed::typed_task;
use goal_files::{read_goals, read_observations};
use std::alloc::{AllocError, Global};
use std::fmt::Write;
use std::test::Fail;

/// A predicate or a schema, and its objects.
fn put_ground(out: &mut String, head: u32, objects: &[u32]) -> Result<(), Fail> {
    put_number(out, "", head)?;
    put_numbers(out, "", objects, ";")
}

/// The atoms of each goal in square brackets, or the fault. The objects are home, t1, t2, c1 and o,
/// from 0 on.
fn goals_of(alloc: Global, text: &str) -> Result<String, Fail> {
    let typed = typed_task(alloc, TRUCKS, TRUCKS_PROBLEM)?;
    if text.len() > 20_000 {
        return Err("too long".into());
    }
    let mut out = String::new(alloc);
    match read_goals(alloc, &typed, text.as_bytes()) {
        Err(fault) => write!(out, "{fault}")?,
        Ok(goals) => {
            for goal in &goals {
                out.push_str("[")?;
                for atom in &goal.atoms {
                    put_ground(&mut out, atom.predicate, &atom.objects)?;
                }
                out.push_str("]")?;
            }
        }
    }
    Ok(out)
}

/// The observations, or the fault.
fn observations_of(alloc: Global, text: &str) -> Result<String, Fail> {
    let typed = typed_task(alloc, TRUCKS, TRUCKS_PROBLEM)?;
    if text.len() > 20_000 {
        return Err("too long".into());
    }
    let mut out = String::new(alloc);
    match read_observations(alloc, &typed, text.as_bytes()) {
        Err(fault) => write!(out, "{fault}")?,
        Ok(observations) => {
            for action in &observations {
                put_ground(&mut out, action.schema, &action.objects)?;
            }
        }
    }
    Ok(out)
}

/// Texts, and their goals or their fault.
const GOALS: &[(&str, &str)] = &[
    ("(at t1 c1)", "[0 1 3;]"),
    ("(QUIET)(any O) , (quiet)\t( any\to )", "[2;1 4;]"),
    ("\t(at,t1,c1),( ,quiet\t) ,", "[0 1 3;2;]"),
    (
        "; (quiet)\r\n\r\n(quiet)\r\n , ;x\n(any home)",
        "[2;][1 0;]",
    ),
    ("(quiet)\n\n(quiet)\r\n", "[2;][2;]"),
    ("(any t1)(ANY T1)(any t2)(any t1)", "[1 1;1 2;]"),
    (
        "(at t2 home)(at t1 home)(at t2 home)(quiet)",
        "[0 2 0;0 1 0;2;]",
    ),
    ("quiet", "line 1: shape"),
    ("(quiet", "line 1: shape"),
    (")(quiet)", "line 1: shape"),
    ("()", "line 1: shape"),
    ("((quiet))", "line 1: shape"),
    ("(any(o))", "line 1: shape"),
    ("(-quiet)", "line 1: shape"),
    ("(any ?o)", "line 1: shape"),
    ("(quiet) ; (quiet)", "line 1: shape"),
    ("(quiet)\r\r\n", "line 1: shape"),
    ("(nothing)", "line 1: unknown atom"),
    ("(quietquiet)", "line 1: unknown atom"),
    ("(any)", "line 1: unknown atom"),
    ("(any o o)", "line 1: unknown atom"),
    ("(quiet o)", "line 1: unknown atom"),
    ("(quiet,any)", "line 1: unknown atom"),
    ("(at t1)", "line 1: unknown atom"),
    ("(any nobody)", "line 1: unknown atom"),
    ("(any go)", "line 1: unknown atom"),
    ("(go t1 c1)", "line 1: unknown atom"),
    ("(at c1 c1)", "line 1: unknown atom"),
    ("(at t1 t1)", "line 1: unknown atom"),
    ("(at c1 t1)", "line 1: unknown atom"),
    ("(at t1 o)", "line 1: unknown atom"),
    ("(quiet)(nothing)", "line 1: unknown atom"),
    ("(nothing)(quiet", "line 1: shape"),
    ("(nothing)\n(quiet", "line 1: unknown atom"),
    ("(quiet\n(nothing)", "line 1: shape"),
    (
        "(quiet)\r\n\r\n;(\r\n(any o)(any)\r\n",
        "line 4: unknown atom",
    ),
    ("\n \n(quiet)\n;\n(any o) quiet", "line 5: shape"),
    ("", "no goal"),
    ("\r\n\n", "no goal"),
    (" ,\t;(quiet)\n;", "no goal"),
];

#[test]
fn goals_are_read_by_number(rt: HostRuntime) -> Result<(), Fail> {
    for (text, want) in GOALS {
        assert_eq!(rt; goals_of(rt.alloc(), text)?.as_str(), *want, "{text}");
    }
    Ok(())
}

/// Texts, and their observations or their fault.
const OBSERVATIONS: &[(&str, &str)] = &[
    ("(go t1 c1)", "0 1 3;"),
    ("(GO,T2,Home)\r\n(rest)\n\n; x\n\t( rest ),", "0 2 0;1;1;"),
    ("(rest)\n(go t1 c1)\n(rest)\n", "1;0 1 3;1;"),
    ("", ""),
    ("\r\n\n", ""),
    (" ,\t;(rest)\n;", ""),
    ("rest", "line 1: shape"),
    ("(rest", "line 1: shape"),
    ("(rest))", "line 1: shape"),
    ("()", "line 1: shape"),
    ("(rest)(rest)", "line 1: shape"),
    ("(rest)(sleep)", "line 1: shape"),
    ("(go ?v c1)", "line 1: shape"),
    ("(rest)\r\r\n", "line 1: shape"),
    ("(sleep)", "line 1: unknown action"),
    ("(quiet)", "line 1: unknown action"),
    ("(rest,o)", "line 1: unknown action"),
    ("(go)", "line 1: unknown action"),
    ("(go t1)", "line 1: unknown action"),
    ("(go t1 c1 c1)", "line 1: unknown action"),
    ("(go t1 nobody)", "line 1: unknown action"),
    ("(go c1 t1)", "line 1: unknown action"),
    ("(go t1 o)", "line 1: unknown action"),
    ("(sleep)\n(rest", "line 1: unknown action"),
    ("(rest\n(sleep)", "line 1: shape"),
    ("(rest)\n(rest)(rest)\n(sleep)", "line 2: shape"),
    (";\r\n\r\n(rest)\r\n(sleep)\r\n", "line 4: unknown action"),
];

#[test]
fn observations_are_read_by_number(rt: HostRuntime) -> Result<(), Fail> {
    for (text, want) in OBSERVATIONS {
        assert_eq!(rt;
            observations_of(rt.alloc(), text)?.as_str(),
            *want,
            "{text}"
        );
    }
    Ok(())
}

/// So many times the same.
fn repeated(alloc: Global, part: &str, count: u16) -> Result<String, AllocError> {
    let mut text = String::new(alloc);
    for _ in 0..count {
        text.push_str(part)?;
    }
    Ok(text)
}

/// How many goals there are, and what is said of them, so many times.
const COUNTED_GOALS: &[(u16, &str, u16)] = &[
    (32, "[2;]", 32),
    (33, "33 goals", 1),
    (100, "100 goals", 1),
];

#[test]
fn there_are_at_most_32_goals(rt: HostRuntime) -> Result<(), Fail> {
    for (count, part, times) in COUNTED_GOALS {
        let text = repeated(rt.alloc(), "(quiet)\n", *count)?;
        let want = repeated(rt.alloc(), part, *times)?;
        assert_eq!(rt;
            goals_of(rt.alloc(), text.as_str())?.as_str(),
            want.as_str()
        );
    }
    Ok(())
}

/// How many observations there are, and what is said of them, so many times.
const COUNTED_OBSERVATIONS: &[(u16, &str, u16)] = &[
    (1024, "1;", 1024),
    (1025, "1025 observations", 1),
];

#[test]
fn there_are_at_most_1024_observations(rt: HostRuntime) -> Result<(), Fail> {
    for (count, part, times) in COUNTED_OBSERVATIONS {
        let text = repeated(rt.alloc(), "(rest)\n", *count)?;
        let want = repeated(rt.alloc(), part, *times)?;
        assert_eq!(rt;
            observations_of(rt.alloc(), text.as_str())?.as_str(),
            want.as_str()
        );
    }
    Ok(())
}
