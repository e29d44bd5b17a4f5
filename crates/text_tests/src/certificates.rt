use cert_text::{CertLine, CertReader, LineFault, Truncated, line_text};
use std::alloc::Global;
use std::fmt::Write;
use std::test::Fail;

/// Lines of every kind.
const LINES: &[u8] = b"grd certificate 1\ntask 5 4 2 0 0\ngoal 1 cost 3\nplan 0 1 2\ntable\n\
cuts 2 state 0\nset 0\nset\nend\ngoal 2 cost none\nsteps never state 0\nwcd none\nwcd 2 goals 1 2\n\
prefix\nlive 0 goals 1 2 state 0\nlive 0 goals 7 state\ndesign 1 wcd none\nremove 4294967295\n\
named 1 goal 1 without\nnamed 2 goal 1 without 0 5\ntree 0 1\nbranch 1 2\nleaf 1\nleaf 1 use 3\n\
verdict 1 yes\nverdict 2 no\ngrd certificate 2\ndone\n";

/// The text of a line that was read.
fn text_again(alloc: Global, line: &CertLine) -> Result<Vec<u8>, Fail> {
    match line {
        CertLine::Live(_, goals, _) if goals.is_empty() => Err("a live row without goals".into()),
        _ => Ok(line_text(alloc, line)?),
    }
}

/// Adds the texts of the lines, or what is at fault.
fn put_answer(
    alloc: Global,
    out: &mut String,
    answer: Result<Vec<CertLine>, LineFault>,
) -> Result<(), Fail> {
    match answer {
        Err(fault) => write!(out, "{fault}; ")?,
        Ok(lines) => {
            for line in &lines {
                let text = text_again(alloc, line)?;
                out.push_str(str::from_utf8(&text)?)?;
            }
        }
    }
    Ok(())
}

/// The number of lines, or where the text ends.
fn put_end(out: &mut String, end: Result<u64, Truncated>) -> Result<(), Fail> {
    match end {
        Err(truncated) => write!(out, "{truncated}")?,
        Ok(lines) => write!(out, "{lines} lines")?,
    }
    Ok(())
}

/// What a reader answers of a text in one piece, and then of nothing.
fn read_whole_text(alloc: Global, text: &[u8], limit: u64) -> Result<String, Fail> {
    let mut out = String::new(alloc);
    let mut reader = CertReader::new(alloc, limit);
    put_answer(alloc, &mut out, reader.feed(text))?;
    put_answer(alloc, &mut out, reader.feed(&[]))?;
    put_end(&mut out, reader.finish())?;
    Ok(out)
}

/// What a reader answers of a text byte by byte.
fn read_by_bytes(alloc: Global, text: &[u8], limit: u64) -> Result<String, Fail> {
    let mut out = String::new(alloc);
    let mut reader = CertReader::new(alloc, limit);
    for at in 0..text.len() {
        put_answer(alloc, &mut out, reader.feed(&text[at..at + 1]))?;
    }
    put_end(&mut out, reader.finish())?;
    Ok(out)
}

#[test]
fn lines_of_every_kind_are_read_and_written_again(rt: HostRuntime) -> Result<(), Fail> {
    let mut want = String::from_str(rt.alloc(), str::from_utf8(LINES)?)?;
    want.push_str("28 lines")?;
    assert_eq!(rt;
        read_whole_text(rt.alloc(), LINES, 1000)?.as_str(),
        want.as_str()
    );
    assert_eq!(rt;
        read_by_bytes(rt.alloc(), LINES, 1000)?.as_str(),
        want.as_str()
    );
    Ok(())
}

/// Texts with their limits, and what a reader answers that is fed again.
const FAULTS: &[(&[u8], u64, &str)] = &[
    (b"end\ntables\n", 100, "end\nline 2: bad line; 2 lines"),
    (b"end\nset 01\n", 100, "end\nline 2: bad line; 2 lines"),
    (
        b"set 1 \n",
        100,
        "line 1: bad line; line 1: bad line; 1 lines",
    ),
    (
        b"set  1\n",
        100,
        "line 1: bad line; line 1: bad line; 1 lines",
    ),
    (b"\n", 100, "line 1: bad line; line 1: bad line; 1 lines"),
    (
        b"live 0 goals state 1\n",
        100,
        "line 1: bad line; line 1: bad line; 1 lines",
    ),
    (
        b"grd certificate 3\n",
        100,
        "line 1: bad line; line 1: bad line; 1 lines",
    ),
    (
        b"set 99999999999999999999 x\n",
        100,
        "line 1: bad line; line 1: bad line; 1 lines",
    ),
    (
        b"set 4294967295\nset 4294967296\n",
        100,
        "set 4294967295\nline 2: bad number; 2 lines",
    ),
    (b"end\nend\n", 8, "end\nend\n2 lines"),
    (b"end\nend\n", 7, "end\nlonger than 7 bytes; 2 lines"),
    (b"end\nbad\n", 7, "end\nlonger than 7 bytes; 2 lines"),
    (
        b"bad\nend\n",
        7,
        "line 1: bad line; line 1: bad line; 2 lines",
    ),
    (b"end\nplan 0", 100, "end\nline 2: truncated"),
    (b"end\n", 100, "end\n1 lines"),
    (b"", 0, "0 lines"),
];

#[test]
fn first_fault_of_a_certificate_stands_behind_its_good_lines(rt: HostRuntime) -> Result<(), Fail> {
    for (text, limit, want) in FAULTS {
        assert_eq!(rt; read_whole_text(rt.alloc(), text, *limit)?.as_str(), *want);
    }
    Ok(())
}
