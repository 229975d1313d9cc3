//! Whole commands over memory: what the worked rows of the language's description say, and the
//! refusal of every limit.
use borealis_top::plain::plain;
use borealis_top::status::Status;
use dpc_edge::memory::{MemSink, MemSource};
use std::alloc::{AllocError, Global};
use std::test::Fail;

/// The smallest whole script.
const SMALLEST: &str =
    "borealis 1\nwidth 10\ndelay 20\nend 30\nsource s 1\nlog s 3 5\nlog s 12 7\nlog s 25 2\nfragment f 1 s\nfilter k s gt c0 4\nclient c f\nbegin\nrelease s 30\ntick 1\ntick 2\ntick 3\ntick 4\n";

/// Its report.
const REPORT: &str =
    "client c\nstable 0 3 5\nstable 1 12 7\nboundary 30 2\nsummary c stable 2 bound 30 tentative 0 settled\n";

/// The same as JSON.
const JSON: &str =
    "{\"clients\":[{\"bound\":30,\"items\":[[\"stable\",0,3,[5]],[\"stable\",1,12,[7]],[\"boundary\",30,2]],\"name\":\"c\",\"settled\":true,\"stable\":2,\"tentative\":0}]}\n";

/// A script without a log, and the journal of its run.
const JOURNAL: &str =
    "borealis 1\nwidth 10\ndelay 5\nend 10\nsource a 1\nfragment f 1 a\nfilter k a 1\nclient c f\nbegin\nrelease a 10\ntick 1\njournal\nphase 1\nrelease a 10\ntick a 1\ntick f.0 1\ntick c 1\njournal end\n";

/// Both in their newest form.
const UPGRADED: &str =
    "borealis 3\nwidth 10\ndelay 5\nend 10\npassing 0\nsource a 1\nfragment f 1 a\nfilter k a 1\nclient c f\nbegin\nrelease a 10\ntick 1\njournal 3 5\nphase 1\nrelease a 10\ntick a 1\ntick f.0 1\ntick c 1\njournal end\n";

/// The summary of its client.
const UNREAD: &str = "client c\nsummary c stable 0 bound 0 tentative 0 open\n";

/// A source of this text, so many bytes a call, that fails its call 1 where told.
fn source(alloc: Global, text: &str, piece: u64, fails: bool) -> Result<MemSource, AllocError> {
    let mut failing = Vec::new(alloc);
    if fails {
        failing.push(1)?;
    }
    let bytes = text.as_bytes().to_vec(alloc)?;
    Ok(MemSource::new(bytes, piece.max(1), failing))
}

/// A sink that takes so many bytes a call and fails its call 2 where told.
fn sink(alloc: Global, piece: u64, fails: bool) -> Result<MemSink, AllocError> {
    let mut failing = Vec::new(alloc);
    if fails {
        failing.push(2)?;
    }
    Ok(MemSink::new(vec![in alloc; 0; 4096]?, piece.max(1), failing))
}

fn words(alloc: Global, first: &str, second: &str) -> Result<Vec<String>, AllocError> {
    let mut words = Vec::new(alloc);
    words.push(String::from_str(alloc, first)?)?;
    if !second.is_empty() {
        words.push(String::from_str(alloc, second)?)?;
    }
    Ok(words)
}

#[test]
fn a_run_writes_its_report(rt: HostRuntime) -> Result<(), Fail> {
    let alloc = rt.alloc();
    let run = words(alloc, "run", "")?;
    let mut input = source(alloc, SMALLEST, 1000, false)?;
    let mut out = sink(alloc, 1000, false)?;
    let mut err = sink(alloc, 1000, false)?;
    let status = plain(alloc, run.as_slice(), &mut input, &mut out, &mut err);
    assert_eq!(rt; status, Status::Done);
    assert_eq!(rt; out.bytes(), REPORT.as_bytes());
    assert_eq!(rt; err.bytes().len(), 0);
    Ok(())
}

#[test]
fn a_run_is_told_in_each_form(rt: HostRuntime) -> Result<(), Fail> {
    let alloc = rt.alloc();
    let rows = [
        ("short", "summary c stable 2 bound 30 tentative 0 settled\n"),
        ("json", JSON),
    ];
    for (form, wanted) in rows {
        let words = words(alloc, "run", form)?;
        let mut input = source(alloc, SMALLEST, 1000, false)?;
        let mut out = sink(alloc, 1000, false)?;
        let mut err = sink(alloc, 1000, false)?;
        let status = plain(alloc, words.as_slice(), &mut input, &mut out, &mut err);
        assert_eq!(rt; status, Status::Done, "at {form}");
        assert_eq!(rt; out.bytes(), wanted.as_bytes(), "at {form}");
        assert_eq!(rt; err.bytes().len(), 0, "at {form}");
    }
    Ok(())
}

#[test]
fn a_client_is_left_open(rt: HostRuntime) -> Result<(), Fail> {
    let alloc = rt.alloc();
    let run = words(alloc, "run", "short")?;
    let Some((before, _)) = SMALLEST.split_once("release") else {
        return Ok(assert!(rt; false, "nothing is released"));
    };
    let text = format!(in alloc; "{before}settle\n")?;
    let mut input = source(alloc, text.as_str(), 1000, false)?;
    let mut out = sink(alloc, 1000, false)?;
    let mut err = sink(alloc, 1000, false)?;
    let status = plain(alloc, run.as_slice(), &mut input, &mut out, &mut err);
    assert_eq!(rt; status, Status::NotSettled);
    assert_eq!(rt;
        out.bytes(),
        "summary c stable 0 bound 0 tentative 0 open\n".as_bytes()
    );
    assert_eq!(rt; err.bytes(), "not settled\n".as_bytes());
    Ok(())
}

#[test]
fn faults_end_a_run(rt: HostRuntime) -> Result<(), Fail> {
    let alloc = rt.alloc();
    let run = words(alloc, "run", "")?;
    let rows = [
        (true, false, Status::ReadFault, 0),
        (false, true, Status::WriteFault, 16),
    ];
    for (input_fails, out_fails, wanted, most) in rows {
        let mut input = source(alloc, SMALLEST, 16, input_fails)?;
        let mut out = sink(alloc, 8, out_fails)?;
        let mut err = sink(alloc, 1000, false)?;
        let status = plain(alloc, run.as_slice(), &mut input, &mut out, &mut err);
        assert_eq!(rt; status, wanted);
        assert!(rt; out.bytes().len() <= most && REPORT.as_bytes().starts_with(out.bytes()));
        assert_eq!(rt; err.bytes().len(), 0);
    }
    Ok(())
}

#[test]
fn words_are_commands_or_not(rt: HostRuntime) -> Result<(), Fail> {
    let alloc = rt.alloc();
    let rows = [
        ("--help", "", Status::Done),
        ("--version", "", Status::Done),
        ("reasons", "", Status::Done),
        ("reasons", "2", Status::Words),
        ("run", "fast", Status::Words),
        ("live", "", Status::Words),
    ];
    for (first, second, wanted) in rows {
        let words = words(alloc, first, second)?;
        let mut input = source(alloc, SMALLEST, 16, false)?;
        let mut out = sink(alloc, 1000, false)?;
        let mut err = sink(alloc, 1000, false)?;
        let status = plain(alloc, words.as_slice(), &mut input, &mut out, &mut err);
        assert_eq!(rt; status, wanted, "at {first} {second}");
        let line: &[u8] = if wanted == Status::Words {
            b"borealis: unknown words\n"
        } else {
            b""
        };
        assert_eq!(rt; err.bytes(), line, "at {first} {second}");
    }
    Ok(())
}

#[test]
fn each_reason_refuses(rt: HostRuntime) -> Result<(), Fail> {
    let alloc = rt.alloc();
    let run = words(alloc, "run", "")?;
    let rows = [
        ("borealis 1\n", "borealis 4\n", "line 1: reason 5\n"),
        ("width 10\n", "width\t10\n", "line 2: reason 1\n"),
        ("width 10\n", "wide 10\n", "line 2: reason 2\n"),
        ("width 10\n", "width 10 10\n", "line 2: reason 3\n"),
        ("width 10\n", "width ten\n", "line 2: reason 4\n"),
        ("end 30\n", "end 35\n", "line 4: reason 5\n"),
        ("end 30\n", "end 100010\n", "line 4: reason 14\n"),
        ("source s 1\n", "source S 1\n", "line 5: reason 2\n"),
        ("log s 3 5\n", "log t 3 5\n", "line 6: reason 8\n"),
        ("log s 3 5\n", "log s 3 -0\n", "line 6: reason 4\n"),
        ("log s 12 7\n", "log s 2 7\n", "line 7: reason 9\n"),
        ("log s 25 2\n", "log s 25 2 2\n", "line 8: reason 10\n"),
        (
            "fragment f 1 s\n",
            "fragment f 1 s s\n",
            "line 9: reason 7\n",
        ),
        (
            "fragment f 1 s\n",
            "fragment f 1 g\n",
            "line 9: reason 11\n",
        ),
        (
            "filter k s gt c0 4\n",
            "source t 1\n",
            "line 10: reason 6\n",
        ),
        (
            "filter k s gt c0 4\n",
            "filter k s gt c1 4\n",
            "line 10: reason 10\n",
        ),
        (
            "filter k s gt c0 4\n",
            "aggregate k s 65 1 - count\n",
            "line 10: reason 14\n",
        ),
        ("client c f\n", "client c g\n", "line 11: reason 11\n"),
        ("client c f\n", "", "line 11: reason 12\n"),
        ("begin\n", "", "line 12: reason 6\n"),
        ("release s 30\n", "cut s c\n", "line 13: reason 8\n"),
        (
            "release s 30\n",
            "crash f.0\ncrash f.0\n",
            "line 14: reason 13\n",
        ),
        ("tick 2\n", "tick 0\n", "line 15: reason 13\n"),
        ("tick 3\n", "settle\n", "line 17: reason 6\n"),
        ("tick 4\n", "release s 30\n", "line 18: reason 12\n"),
    ];
    for (line, other, wanted) in rows {
        let Some((before, behind)) = SMALLEST.split_once(line) else {
            return Ok(assert!(rt; false, "no line {line}"));
        };
        let text = format!(in alloc; "{before}{other}{behind}")?;
        let mut input = source(alloc, text.as_str(), 1000, false)?;
        let mut out = sink(alloc, 1000, false)?;
        let mut err = sink(alloc, 1000, false)?;
        let status = plain(alloc, run.as_slice(), &mut input, &mut out, &mut err);
        assert_eq!(rt; status, Status::Refused, "at {other}");
        assert_eq!(rt; err.bytes(), wanted.as_bytes(), "at {other}");
        assert_eq!(rt; out.bytes().len(), 0, "at {other}");
    }
    Ok(())
}

#[test]
fn a_script_is_checked_and_printed(rt: HostRuntime) -> Result<(), Fail> {
    let alloc = rt.alloc();
    for (word, wanted) in [("check", "ok\n"), ("print", SMALLEST)] {
        let words = words(alloc, word, "")?;
        let mut input = source(alloc, SMALLEST, 1000, false)?;
        let mut out = sink(alloc, 1000, false)?;
        let mut err = sink(alloc, 1000, false)?;
        let status = plain(alloc, words.as_slice(), &mut input, &mut out, &mut err);
        assert_eq!(rt; status, Status::Done, "at {word}");
        assert_eq!(rt; out.bytes(), wanted.as_bytes(), "at {word}");
    }
    Ok(())
}

/// What a command writes of an input, where nothing fails.
fn answer(
    alloc: Global,
    first: &str,
    text: &str,
) -> Result<(Status, Vec<u8>, Vec<u8>), AllocError> {
    let words = words(alloc, first, "")?;
    let mut input = source(alloc, text, 1000, false)?;
    let mut out = sink(alloc, 1000, false)?;
    let mut err = sink(alloc, 1000, false)?;
    let status = plain(alloc, words.as_slice(), &mut input, &mut out, &mut err);
    Ok((
        status,
        out.bytes().to_vec(alloc)?,
        err.bytes().to_vec(alloc)?,
    ))
}

#[test]
fn a_journal_is_replayed(rt: HostRuntime) -> Result<(), Fail> {
    let alloc = rt.alloc();
    for input in [JOURNAL, UPGRADED] {
        let (status, out, err) = answer(alloc, "replay", input)?;
        assert_eq!(rt; status, Status::Done);
        assert_eq!(rt; out.as_slice(), UNREAD.as_bytes());
        assert_eq!(rt; err.len(), 0);
    }
    let Some((early, _)) = JOURNAL.split_once("tick c 1") else {
        return Ok(assert!(rt; false, "no tick of the client"));
    };
    let text = format!(in alloc; "{early}journal end\n")?;
    let (status, out, err) = answer(alloc, "replay", text.as_str())?;
    assert_eq!(rt; status, Status::Refused);
    assert_eq!(rt; out.len(), 0);
    assert_eq!(rt; err.as_slice(), "entry 4: reason 3\n".as_bytes());
    Ok(())
}

#[test]
fn a_journal_is_upgraded(rt: HostRuntime) -> Result<(), Fail> {
    let alloc = rt.alloc();
    let (status, out, err) = answer(alloc, "upgrade", JOURNAL)?;
    assert_eq!(rt; status, Status::Done);
    assert_eq!(rt; out.as_slice(), UPGRADED.as_bytes());
    assert_eq!(rt; err.len(), 0);
    let (status, out, err) = answer(alloc, "upgrade", UPGRADED)?;
    assert_eq!(rt; status, Status::Refused);
    assert_eq!(rt; out.len(), 0);
    assert_eq!(rt; err.as_slice(), "line 1: reason 5\n".as_bytes());
    Ok(())
}
