ghost use Rattle.std.specs.Prelude.{◌≤◌};

use super::*;
use sa_base::{MemSink, MemSource, Memory};
use std::alloc::Global;
use std::process::Abort;
use std::test::Fail;

/// What the program answers and writes for these words and this input, with enough room.
fn outcome(
    alloc: Global,
    words: &[&str],
    input: &[u8],
    piece: usize,
    read_fails: &[u64],
    room: usize,
    write_fails: &[u64],
) -> Result<(Status, Vec<u8>), Memory>
    requires { 1 ≤ piece }
{
    let mut list = Vec::new(alloc);
    for word in words {
        list.push(String::from_str(alloc, word)?)?;
    }
    let bytes = Vec::from_slice(alloc, input)?;
    let mut source = MemSource::new(bytes, piece, Vec::from_slice(alloc, read_fails)?);
    let mut sink = MemSink::new(alloc, room, piece, Vec::from_slice(alloc, write_fails)?)?;
    let status = run_still(alloc, list.as_slice(), &mut source, &mut sink);
    let written = Vec::from_slice(alloc, sink.bytes())?;
    Ok((status, written))
}

/// A run of `serial` that no fault disturbs.
fn serial(alloc: Global, input: &[u8]) -> Result<(Status, Vec<u8>), Memory> {
    outcome(alloc, &["serial"], input, 65_536, &[], 1_048_576, &[])
}

/// Each script of a table has this status, and these bytes.
fn answers(
    rt: &impl Abort,
    alloc: Global,
    want: Status,
    cases: &[(&[u8], &[u8])],
) -> Result<(), Memory> {
    for (script, bytes) in cases {
        let (status, written) = serial(alloc, script)?;
        assert_eq!(rt; status, want, "at {script:?}");
        assert_eq!(rt; written.as_slice(), *bytes, "at {script:?}");
    }
    Ok(())
}

#[test]
fn scripts_have_their_reports(rt: HostRuntime) -> Result<(), Memory> {
    let cases: [(&[u8], &[u8]); 5] = [
        (b"end\n", b"report 1\nhistory\nmarked\nend\n"),
        (
            b"descr d absent\narray a d str 2\ntask\nset a (\"hi\",\"\xc3\xa9\\\"\")\nshow a\nset a \"x\"\nend\n",
            b"report 1\nhistory 0:0 0:1 0:2\nmarked\ntask 0\n0 done\n1 shown (\"hi\",\"\xc3\xa9\\\"\")\n2 done\narray a (\"x\",\"x\")\nstats d cursor 0 live 0 dead 0 outside 0\nend\n",
        ),
        (
            b"descr d text \"-\"\ndescr e absent strict\narray a d str 2\narray b e str 1\ntask\nset a (\"x\",na)\ntask\nset b na\nshow a\nend\n",
            b"report 1\nhistory 0:0 1:0 1:1\nmarked\ntask 0\n0 done\ntask 1\n0 refused 1 0\n1 shown (\"x\",na)\narray a (\"x\",na)\narray b (\"\")\nstats d cursor 0 live 0 dead 0 outside 0\nstats e cursor 0 live 0 dead 0 outside 0\nend\n",
        ),
        (
            b"# controls\r\ndescr d nan\r\narray a d str 1\r\ntask\r\nset a \"\\u{9}\\u{7f}\\u{1f}\x7f\"\r\nshow a\r\nend",
            b"report 1\nhistory 0:0 0:1\nmarked\ntask 0\n0 done\n1 shown (\"\\u{9}\\u{7f}\\u{1f}\\u{7f}\")\narray a (\"\\u{9}\\u{7f}\\u{1f}\\u{7f}\")\nstats d cursor 0 live 0 dead 0 outside 0\nend\n",
        ),
        (
            b"descr d absent\narray a d str 2\narray b d str 2\ntask\nset a (\"p\",\"q\")\nset b (\"r\",na)\nshow b\nend\n",
            b"report 1\nhistory 0:0 0:1 0:2\nmarked\ntask 0\n0 done\n1 refused 1 1\n2 shown (\"\",\"\")\narray a (\"p\",\"q\")\narray b (\"\",\"\")\nstats d cursor 0 live 0 dead 0 outside 0\nend\n",
        ),
    ];
    answers(&rt, rt.alloc(), Status::Done, &cases)
}

#[test]
fn plain_arrays_have_their_reports(rt: HostRuntime) -> Result<(), Memory> {
    let cases: [(&[u8], &[u8]); 2] = [
        (
            b"descr d nan\narray a d str 2\narray f d bool 2\ntask\nset a (\"b\",na)\nless a \"c\" into f\nshow f\nend\n",
            b"report 1\nhistory 0:0 0:1 0:2\nmarked\ntask 0\n0 done\n1 done\n2 shown (true,false)\narray a (\"b\",na)\narray f (true,false)\nstats d cursor 0 live 0 dead 0 outside 0\nend\n",
        ),
        (
            b"descr d absent\ndescr e text \"-\"\narray n e int 2\narray b d bytes 2 1\narray u e fixed 2 0\ntask\ncount (\"aa\",\"b\") \"a\" into n\nmultiply \"x\" n\nset b hex:0A\nend\n",
            b"report 1\nhistory 0:0 0:1 0:2\nmarked\ntask 0\n0 done\n1 shown (\"xx\",\"\")\n2 done\narray n (2,0)\narray b (hex:0a00)\narray u ()\nstats d cursor 0 live 0 dead 0 outside 0\nstats e cursor 0 live 0 dead 0 outside 0\nend\n",
        ),
    ];
    answers(&rt, rt.alloc(), Status::Done, &cases)
}

#[test]
fn texts_lie_where_the_layout_puts_them(rt: HostRuntime) -> Result<(), Memory> {
    let cases: [(&[u8], &[u8]); 3] = [
        (
            b"descr d absent\narray b d str 2\ntask\nset b (\"abcdefghijklmno\",\"abcdefghijklmnop\")\nend\n",
            b"report 1\nhistory 0:0\nmarked\ntask 0\n0 done\narray b (\"abcdefghijklmno\",\"abcdefghijklmnop\")\nstats d cursor 17 live 17 dead 0 outside 0\nend\n",
        ),
        (
            b"descr d nan\narray a d str 1\ntask\nset a \"abcdefghijklmnop\"\nset a \"abcdefghijklmnopqrst\"\nset a na\nset a \"abcdefghijklmnop\"\nend\n",
            b"report 1\nhistory 0:0 0:1 0:2 0:3\nmarked\ntask 0\n0 done\n1 done\n2 done\n3 done\narray a (\"abcdefghijklmnop\")\nstats d cursor 0 live 0 dead 0 outside 1\nend\n",
        ),
        (
            b"descr d nan\ndescr e nan\narray a d str 1\narray b e str 1\narray c d str 1\ntask\nset a \"abcdefghijklmnop\"\nset c \"abcdefghijklmnop\"\nset b \"abcdefghijklmnop\"\nset a \"x\"\nend\n",
            b"report 1\nhistory 0:0 0:1 0:2 0:3\nmarked\ntask 0\n0 done\n1 done\n2 done\n3 done\narray a (\"x\")\narray b (\"abcdefghijklmnop\")\narray c (\"abcdefghijklmnop\")\nstats d cursor 34 live 17 dead 17 outside 0\nstats e cursor 17 live 17 dead 0 outside 0\nend\n",
        ),
    ];
    answers(&rt, rt.alloc(), Status::Done, &cases)
}

#[test]
fn what_is_no_script_has_its_fault(rt: HostRuntime) -> Result<(), Memory> {
    let cases: [(&[u8], &[u8]); 9] = [
        (b"", b"fault 11 line 0\n"),
        (b"descr d absent coerce\n", b"fault 11 line 1\n"),
        (b"\xff\n", b"fault 1 line 1\n"),
        (b"foo a\n", b"fault 2 line 1\n"),
        (
            b"descr d nan\narray a d str 2\nset a \"x\"\n",
            b"fault 3 line 3\n",
        ),
        (b"descr d nan\ndescr d nan\n", b"fault 4 line 2\n"),
        (b"descr d nan\narray a d str 8193\n", b"fault 5 line 2\n"),
        (
            b"descr d nan\narray a d str 2\ntask\nset a (\"x\",\"y\",\"z\")\nend\n",
            b"fault 8 line 4\n",
        ),
        (b"end\nend\n\xff\n", b"fault 3 line 2\n"),
    ];
    answers(&rt, rt.alloc(), Status::Script, &cases)
}

#[test]
fn other_words_are_no_command(rt: HostRuntime) -> Result<(), Fail> {
    let cases: [&[&str]; 18] = [
        &[],
        &["run"],
        &["run", "0"],
        &["run", "2"],
        &["run", "17"],
        &["run", "+2"],
        &["steps", "7"],
        &["steps", "65536"],
        &["check"],
        &["sample"],
        &["sample", "65536"],
        &["sample", "000000"],
        &["sample", "-0"],
        &["sample", "0", "0"],
        &["audit"],
        &["serial", "x"],
        &["Serial"],
        &["--help"],
    ];
    for words in cases {
        let (status, written) = outcome(rt.alloc(), words, b"end\n", 4, &[], 64, &[])?;
        assert_eq!(rt; status, Status::Words, "at {words:?}");
        assert_eq!(rt; written.len(), 0, "at {words:?}");
    }
    Ok(())
}

/// The summary of a sample, as a plain program of the same behaviour gives it.
static SUMMARY: &str = "sample 0
script 18045
done 431 refused 81
report 11983
stats d0 cursor 0 live 0 dead 0 outside 18
stats d1 cursor 0 live 0 dead 0 outside 32
stats d2 cursor 0 live 0 dead 0 outside 31
stats d3 cursor 0 live 0 dead 0 outside 7
";

#[test]
fn a_sample_has_its_summary(rt: HostRuntime) -> Result<(), Fail> {
    for number in ["0", "00000"] {
        let words = ["sample", number];
        let (status, written) = outcome(rt.alloc(), &words, b"end\n", 64, &[0], 4096, &[])?;
        assert_eq!(rt; status, Status::Done);
        assert_eq!(rt; written.as_slice(), SUMMARY.as_bytes());
    }
    Ok(())
}

#[test]
fn a_failed_write_ends_a_sample(rt: HostRuntime) -> Result<(), Fail> {
    let words = ["sample", "65535"];
    let (status, written) = outcome(rt.alloc(), &words, b"", 8, &[], 4096, &[2])?;
    assert_eq!(rt; status, Status::WriteFault);
    assert_eq!(rt; written.as_slice(), b"sample 65535\nscr".as_slice());
    Ok(())
}

#[test]
fn a_failed_read_ends_the_run(rt: HostRuntime) -> Result<(), Fail> {
    for k in 0..5u64 {
        let (status, written) = outcome(rt.alloc(), &["serial"], b"end\n", 1, &[k], 64, &[])?;
        assert_eq!(rt; status, Status::ReadFault, "at {k}");
        assert_eq!(rt; written.len(), 0, "at {k}");
    }
    let (status, written) = outcome(rt.alloc(), &["serial"], b"end\n", 1, &[5], 64, &[])?;
    assert_eq!(rt; status, Status::Done);
    assert_eq!(rt;
        written.as_slice(),
        b"report 1\nhistory\nmarked\nend\n".as_slice()
    );
    let (status, written) = outcome(rt.alloc(), &["serial"], b"end\n", 4, &[1], 64, &[])?;
    assert_eq!(rt; status, Status::ReadFault);
    assert_eq!(rt; written.len(), 0);
    Ok(())
}

#[test]
fn a_failed_write_leaves_a_front(rt: HostRuntime) -> Result<(), Fail> {
    let report = b"report 1\nhistory\nmarked\nend\n";
    for k in 0..28usize {
        let (status, written) = outcome(
            rt.alloc(),
            &["serial"],
            b"end\n",
            1,
            &[],
            64,
            &[k as u64],
        )?;
        assert_eq!(rt; status, Status::WriteFault, "at {k}");
        assert_eq!(rt; written.as_slice(), &report[..k], "at {k}");
    }
    let (status, written) = outcome(rt.alloc(), &["serial"], b"end\n", 1, &[], 64, &[28])?;
    assert_eq!(rt; status, Status::Done);
    assert_eq!(rt; written.as_slice(), report.as_slice());
    let (status, written) = outcome(rt.alloc(), &["serial"], b"end\n", 65_536, &[], 10, &[])?;
    assert_eq!(rt; status, Status::WriteFault);
    assert_eq!(rt; written.as_slice(), b"report 1\nh".as_slice());
    Ok(())
}

#[test]
fn a_script_has_at_most_4194304_bytes(rt: HostRuntime) -> Result<(), Fail> {
    let long = vec![in rt.alloc(); b'\n'; 4_194_305]?;
    let (status, written) = serial(rt.alloc(), long.as_slice())?;
    assert_eq!(rt; status, Status::LongScript);
    assert_eq!(rt; written.len(), 0);
    let mut most = vec![in rt.alloc(); b'#'; 4_194_299]?;
    most.extend_from_slice(b"\nend\n")?;
    let (status, written) = serial(rt.alloc(), most.as_slice())?;
    assert_eq!(rt; status, Status::Done);
    assert_eq!(rt;
        written.as_slice(),
        b"report 1\nhistory\nmarked\nend\n".as_slice()
    );
    Ok(())
}

#[test]
fn large_input_and_output_have_their_answers(rt: HostRuntime) -> Result<(), Fail> {
    let alloc = rt.alloc();
    let mut late = vec![in alloc; b'\n'; 2_500]?;
    late.extend_from_slice(b"foo\n")?;
    let (status, written) = serial(alloc, late.as_slice())?;
    assert_eq!(rt; status, Status::Script);
    assert_eq!(rt; written.as_slice(), b"fault 2 line 2501\n".as_slice());
    // three tasks show 8,192 texts of 40 letters, twice each: 43 bytes a text, and brackets
    let mut script = Vec::from_slice(alloc, b"descr d nan\narray a d str 8192\ntask\nset a \"")?;
    for _ in 0..40 {
        script.push(b'x')?;
    }
    script.extend_from_slice(b"\"\nshow a\ntask\nshow a\nshow a\ntask\nshow a\nshow a\nend\n")?;
    let (status, written) = outcome(
        alloc,
        &["serial"],
        script.as_slice(),
        65_536,
        &[],
        3_000_000,
        &[],
    )?;
    let front =
        b"report 1\nhistory 0:0 0:1 1:0 1:1 2:0 2:1\nmarked\ntask 0\n0 done\n1 shown (\"xxxx";
    assert_eq!(rt; status, Status::Done);
    assert!(rt; starts(written.as_slice(), front));
    assert_eq!(rt; written.len(), 2_113_727);
    Ok(())
}

/// Whether bytes start with a front.
fn starts(bytes: &[u8], front: &[u8]) -> bool {
    bytes.len() >= front.len() && &bytes[..front.len()] == front
}

/// The report of a call that sets an array of `len` entries to one text of `size` letters.
fn set_one_text(alloc: Global, len: &[u8], size: usize) -> Result<Vec<u8>, Memory> {
    let mut script = Vec::from_slice(alloc, b"descr d absent\narray a d str ")?;
    script.extend_from_slice(len)?;
    script.extend_from_slice(b"\ntask\nset a \"")?;
    for _ in 0..size {
        script.push(b'x')?;
    }
    script.extend_from_slice(b"\"\nend\n")?;
    let (_status, written) = outcome(
        alloc,
        &["serial"],
        script.as_slice(),
        65_536,
        &[],
        2_000_000,
        &[],
    )?;
    Ok(written)
}

#[test]
fn a_call_weighs_at_most_1048576(rt: HostRuntime) -> Result<(), Fail> {
    // 16 times 65,536 is the limit, and 17 times 61,681 is one more.
    let allowed = set_one_text(rt.alloc(), b"15", 65_520)?;
    let refused = set_one_text(rt.alloc(), b"16", 61_665)?;
    let done = b"report 1\nhistory 0:0\nmarked\ntask 0\n0 done\n";
    let too_much = b"report 1\nhistory 0:0\nmarked\ntask 0\n0 refused 4 15\n";
    assert!(rt; starts(allowed.as_slice(), done));
    assert!(rt; starts(refused.as_slice(), too_much));
    Ok(())
}
