// Scripts, read.
use crate::shown::outcome;
use byte_text::Text;
use mount_script::{Script, ScriptError};
use std::alloc::{AllocError, Global};
use std::test::Fail;

/// Texts, and what each says.
const SCRIPTS: [(&str, &str); 37] = [
    ("", ""),
    ("\n\n", ""),
    ("--\n--", ""),
    (
        "mount logs mount-x\nsearch logs 10 {\"term\":{\"body\":\"fox\"}}",
        "[1 mount logs mount-x;][2 search logs 10 <{\"term\":{\"body\":\"fox\"}}>;]",
    ),
    // blocks: dividers, empty ones, and commands that stand alone
    ("decay\ndecay\n--\ndecay\n", "[1 decay;2 decay;][4 decay;]"),
    ("--\n\ndecay\n\n--\n--\ndecay", "[3 decay;][7 decay;]"),
    (
        "decay\nmount a m\ndecay\nstats\nstats\ndecay",
        "[1 decay;][2 mount a m;][3 decay;][4 stats;][5 stats;][6 decay;]",
    ),
    (
        "unmount a\nclear a\nsearch a 0 x\nfetch a _0 7\nread a f 1 2\ndecay",
        "[1 unmount a;2 clear a;3 search a 0 <x>;4 fetch a _0 7;5 read a f 1 2;6 decay;]",
    ),
    // the first line out of form, whatever stands behind it
    ("mount logs mount-x\nfind logs\n", "line 2"),
    ("\n\nfind\nread\nfind", "line 3"),
    ("-", "line 1"),
    ("---", "line 1"),
    ("-- ", "line 1"),
    (" ", "line 1"),
    ("decay ", "line 1"),
    (" decay", "line 1"),
    ("decay\r\n", "line 1"),
    ("stats a", "line 1"),
    ("Decay", "line 1"),
    ("mount a", "line 1"),
    ("mount a b c", "line 1"),
    ("mount  a b", "line 1"),
    ("mount a\tb", "line 1"),
    ("unmount", "line 1"),
    ("unmount a b", "line 1"),
    ("clear a/b", "line 1"),
    ("clear ", "line 1"),
    ("search a 10", "line 1"),
    ("search a 10 ", "line 1"),
    ("search a 10  ", "[1 search a 10 < >;]"),
    ("search a 10 x y  z ", "[1 search a 10 <x y  z >;]"),
    ("search a -1 x", "line 1"),
    ("search a 10001 x", "line 1"),
    ("search a 00000000000000010000 x", "[1 search a 10000 <x>;]"),
    ("search a 000000000000000010000 x", "line 1"),
    ("fetch a _0 4294967295\nfetch a _0 4294967296", "line 2"),
    (
        "read a f 18446744073709551615 1048576\nread a f 18446744073709551616 1",
        "line 2",
    ),
];

#[test]
fn reads_scripts(rt: HostRuntime) -> Result<(), Fail> {
    let alloc = rt.alloc();
    for (text, wanted) in SCRIPTS {
        let said = outcome(alloc, text.as_bytes())?;
        assert_eq!(rt; said.as_str(), wanted);
    }
    Ok(())
}

/// A line of a script that has every command. What the script says up to the line's end; what it says where the line is
/// cut, but has at least so many bytes; and what it says where the line is shorter and not empty.
#[derive(Clone, Copy)]
struct Cut {
    line: &'static str,
    least: usize,
    whole: &'static str,
    shorter: &'static str,
    bad: &'static str,
}

const fn row(
    line: &'static str,
    least: usize,
    whole: &'static str,
    shorter: &'static str,
    bad: &'static str,
) -> Cut {
    Cut {
        line,
        least,
        whole,
        shorter,
        bad,
    }
}

fn every_command() -> [Cut; 10] {
    [
        row(
            "mount a mn",
            9,
            "[1 mount a mn;]",
            "[1 mount a m;]",
            "line 1",
        ),
        row(
            "unmount a",
            9,
            "[1 mount a mn;][2 unmount a;]",
            "",
            "line 2",
        ),
        row(
            "clear a",
            7,
            "[1 mount a mn;][2 unmount a;3 clear a;]",
            "",
            "line 3",
        ),
        row(
            "--",
            2,
            "[1 mount a mn;][2 unmount a;3 clear a;]",
            "",
            "line 4",
        ),
        row(
            "decay",
            5,
            "[1 mount a mn;][2 unmount a;3 clear a;][5 decay;]",
            "",
            "line 5",
        ),
        row(
            "stats",
            5,
            "[1 mount a mn;][2 unmount a;3 clear a;][5 decay;][6 stats;]",
            "",
            "line 6",
        ),
        row(
            "search a 1 {}",
            12,
            "[1 mount a mn;][2 unmount a;3 clear a;][5 decay;][6 stats;]\
             [7 search a 1 <{}>;]",
            "[1 mount a mn;][2 unmount a;3 clear a;][5 decay;][6 stats;]\
             [7 search a 1 <{>;]",
            "line 7",
        ),
        row(
            "",
            0,
            "[1 mount a mn;][2 unmount a;3 clear a;][5 decay;][6 stats;]\
             [7 search a 1 <{}>;]",
            "",
            "",
        ),
        row(
            "fetch a _0 12",
            12,
            "[1 mount a mn;][2 unmount a;3 clear a;][5 decay;][6 stats;]\
             [7 search a 1 <{}>;9 fetch a _0 12;]",
            "[1 mount a mn;][2 unmount a;3 clear a;][5 decay;][6 stats;]\
             [7 search a 1 <{}>;9 fetch a _0 1;]",
            "line 9",
        ),
        row(
            "read a f 3 67",
            12,
            "[1 mount a mn;][2 unmount a;3 clear a;][5 decay;][6 stats;]\
             [7 search a 1 <{}>;9 fetch a _0 12;10 read a f 3 67;]",
            "[1 mount a mn;][2 unmount a;3 clear a;][5 decay;][6 stats;]\
             [7 search a 1 <{}>;9 fetch a _0 12;10 read a f 3 6;]",
            "line 10",
        ),
    ]
}

/// What the first `n` bytes of that script say.
fn front_outcome(lines: &[Cut], n: usize) -> &'static str {
    let mut left = n;
    let mut so_far = "";
    for line in lines {
        if left == 0 {
            return so_far;
        }
        let len = line.line.len();
        if left < line.least {
            return line.bad;
        }
        if left < len {
            return line.shorter;
        }
        so_far = line.whole;
        if left == len {
            return so_far;
        }
        left -= len + 1;
    }
    so_far
}

fn text_of(alloc: Global, lines: &[Cut]) -> Result<Text, AllocError> {
    let mut text = Text::new(alloc);
    for line in lines {
        text.extend(line.line.as_bytes())?;
        text.push(b'\n')?;
    }
    Ok(text)
}

#[test]
fn reads_each_front(rt: HostRuntime) -> Result<(), Fail> {
    let alloc = rt.alloc();
    let lines = every_command();
    let text = text_of(alloc, lines.as_slice())?;
    let bytes = text.as_bytes();
    for n in 0..=bytes.len() {
        let said = outcome(alloc, &bytes[..n])?;
        assert_eq!(rt; said.as_str(), front_outcome(lines.as_slice(), n));
    }
    Ok(())
}

/// So many times this text, with another before and behind.
fn repeated(
    alloc: Global,
    front: &str,
    text: &str,
    n: usize,
    end: &str,
) -> Result<Text, AllocError> {
    let mut all = Text::of(alloc, front.as_bytes())?;
    for _ in 0..n {
        all.extend(text.as_bytes())?;
    }
    all.extend(end.as_bytes())?;
    Ok(all)
}

/// How many blocks the text has, or why it is no script.
fn count(alloc: Global, text: &Text) -> Result<u32, ScriptError> {
    Ok(Script::read(alloc, text.as_bytes())?.blocks_len())
}

#[test]
fn keeps_the_limits(rt: HostRuntime) -> Result<(), Fail> {
    let alloc = rt.alloc();
    let rows = [
        // lines, before their forms are looked at
        ("", "\n", 65_535, "", Ok(0)),
        ("", "\n", 65_535, "x", Err(ScriptError::TooLong)),
        ("x\n", "\n", 65_535, "", Err(ScriptError::TooLong)),
        ("", "stats\n", 65_534, "stats", Ok(65_535)),
        ("", "decay\n", 65_535, "", Ok(1)),
        // bytes
        ("search a 1 ", "x", 1_048_565, "", Ok(1)),
        (
            "search a 1 ",
            "x",
            1_048_565,
            "\n",
            Err(ScriptError::TooLong),
        ),
        (
            "",
            " ",
            1_048_576,
            "",
            Err(ScriptError::BadLine { line: 1 }),
        ),
        ("", " ", 1_048_577, "", Err(ScriptError::TooLong)),
        // names
        ("clear ", "n", 64, "", Ok(1)),
        ("clear ", "n", 65, "", Err(ScriptError::BadLine { line: 1 })),
        ("mount a ", "m", 255, "", Ok(1)),
        (
            "mount a ",
            "m",
            256,
            "",
            Err(ScriptError::BadLine { line: 1 }),
        ),
        ("read a ", "f", 255, " 0 0", Ok(1)),
        (
            "read a ",
            "f",
            256,
            " 0 0",
            Err(ScriptError::BadLine { line: 1 }),
        ),
    ];
    for (front, text, n, end, wanted) in rows {
        let all = repeated(alloc, front, text, n, end)?;
        assert_eq!(rt; count(alloc, &all), wanted);
    }
    Ok(())
}
