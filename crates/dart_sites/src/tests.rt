// The program over streams in memory: what no clause says, and that memory is enough.
use crate::status::Status;
use crate::top::dart_sites_main;
use crate::words::workers_of;
use ds_base::{MemorySink, MemorySource, OpenGate};
use std::process::Abort;
use std::test::Fail;
use std::thread::Threads;

const FIRST: &str = "class A { m() => 7; }\nmain() { print(A().m()); }\n";

const FIRST_TEXT: &str =
    "entry 0 main\n7\nend done\nsites 3\n0 m/0 2:20 calls 1 mono A -> A.m\n1 toString/0 print calls 1 mono int -> int.toString\n2 toString/0 list calls 0 unlinked\n";

const TWICE_TEXT: &str =
    "entry 0 main\n7\nend done\nentry 1 main\n7\nend done\nsites 3\n0 m/0 2:20 calls 2 mono A -> A.m\n1 toString/0 print calls 2 mono int -> int.toString\n2 toString/0 list calls 0 unlinked\n";

const TWO_TURNS_TEXT: &str =
    "entry 0 main\nend out of turns\nsites 3\n0 m/0 2:20 calls 1 mono A -> A.m\n1 toString/0 print calls 0 unlinked\n2 toString/0 list calls 0 unlinked\n";

fn words_of<R: AllocGlobal>(rt: &R, line: &str) -> Result<Vec<String>, Fail> {
    let alloc = rt.alloc();
    let mut words = Vec::new(alloc);
    for word in line.split_whitespace() {
        words.push(String::from_str(alloc, word)?)?;
    }
    Ok(words)
}

/// Runs the words over a source whose reads in `reads` fail and a sink whose writes in `writes` fail, and compares.
fn expect<R: Threads + Sync + Abort + AllocGlobal>(
    rt: &R,
    line: &str,
    text: &[u8],
    reads: &[u64],
    writes: &[u64],
    status: Status,
    held: &[u8],
) -> Result<(), Fail> {
    let alloc = rt.alloc();
    let words = words_of(rt, line)?;
    let mut source = MemorySource::build(text.to_vec(alloc)?, reads.to_vec(alloc)?, 65_536);
    let mut sink = MemorySink::build(alloc, 1_048_576, writes.to_vec(alloc)?, 4)
        .ok()
        .ok_or("memory")?;
    let answer = dart_sites_main(
        rt,
        alloc,
        words.as_slice(),
        &mut source,
        &mut sink,
        &OpenGate,
    );
    assert_eq!(rt; answer, status, "{line}");
    assert_eq!(rt; sink.bytes(), held, "{line}");
    if answer == Status::BadWords {
        assert_eq!(rt; source.unread(), text, "{line}");
    }
    Ok(())
}

#[test]
fn runs_entries_and_tells_faults(rt: HostRuntime) -> Result<(), Fail> {
    let first = FIRST.as_bytes();
    let run = "run 100 1 main";
    for (line, status, text) in [
        (run, Status::Done, FIRST_TEXT),
        ("run 3 1 main main", Status::Done, TWICE_TEXT),
        ("run 2 1 main", Status::EntryFault, TWO_TURNS_TEXT),
    ] {
        expect(&rt, line, first, &[], &[], status, text.as_bytes())?;
    }
    expect(&rt, run, first, &[], &[1], Status::WriteFault, b"entr")?;
    let read = b"fault: read\n";
    expect(&rt, run, first, &[0], &[], Status::ReadFault, read)?;
    expect(&rt, run, first, &[0], &[0], Status::ReadFault, b"")
}

#[test]
fn refuses_words_and_reads_nothing(rt: HostRuntime) -> Result<(), Fail> {
    let first = FIRST.as_bytes();
    for line in [
        "",
        "run",
        "run 1 1",
        "run 010 1 main",
        "run 0 1 main",
        "run 1000000001 1 main",
        "run 18446744073709551616 1 main",
        "run 1 17 main",
        "run 1 2 main",
        "check check",
        "list main",
        "--help",
    ] {
        expect(
            &rt,
            line,
            first,
            &[],
            &[],
            Status::BadWords,
            b"refused: words\n",
        )?;
        assert_eq!(&rt; workers_of(words_of(&rt, line)?.as_slice()), None);
    }
    let words = words_of(&rt, "run 1 1 main")?;
    assert_eq!(&rt; workers_of(words.as_slice()), Some(1));
    Ok(())
}

#[test]
fn refuses_what_is_no_source(rt: HostRuntime) -> Result<(), Fail> {
    for (text, held) in [
        ("f() => 0x;", "refused: BadChar at 1:8\n"),
        ("'a\n", "refused: UnclosedString at 1:1\n"),
        ("\n\nclass A {", "refused: Syntax at 3:10\n"),
        (
            "class A { m() => 7; } main() { print(A().m()); } ;",
            "refused: Syntax at 1:50\n",
        ),
        (
            "classA { m() => 7; } main() { print(A().m()); }",
            "refused: Syntax at 1:8\n",
        ),
    ] {
        let line = "run 100 1 main";
        let text = text.as_bytes();
        expect(
            &rt,
            line,
            text,
            &[],
            &[],
            Status::SyntaxRefused,
            held.as_bytes(),
        )?;
    }
    Ok(())
}

#[test]
fn refuses_names(rt: HostRuntime) -> Result<(), Fail> {
    for (line, text, held) in [
        ("run 100 1 main", "", "refused: no entry point main\n"),
        (
            "run 100 1 main f g",
            "main() {} f() {}",
            "refused: no entry point f\n",
        ),
        (
            "run 100 1 main",
            "class A { m() => 7; m() => 8; } main() { print(A().m()); }",
            "refused: DuplicateName at 1:21\n",
        ),
    ] {
        expect(
            &rt,
            line,
            text.as_bytes(),
            &[],
            &[],
            Status::NameRefused,
            held.as_bytes(),
        )?;
    }
    Ok(())
}

/// What `check` writes where the source has nothing.
const NOTHING: &[u8] = b"ok classes 7 methods 49 selectors 1 sites 2\n";

/// What `list` writes of the first source.
const FIRST_LIST: &[u8] =
    b"class 0 Object parent - last 7\nclass 1 Null parent 0 last 1\nclass 2 bool parent 0 last 2\nclass 3 int parent 0 last 3\nclass 4 String parent 0 last 4\nclass 5 List parent 0 last 5\nclass 6 Invocation parent 0 last 6\nclass 7 A parent 0 last 7\nsite 0 m/0 2:20\nsite 1 toString/0 print\nsite 2 toString/0 list\n";

#[test]
fn checks_and_lists_sources(rt: HostRuntime) -> Result<(), Fail> {
    let first = FIRST.as_bytes();
    let counts = b"ok classes 8 methods 50 selectors 2 sites 3\n";
    expect(&rt, "check", first, &[], &[], Status::Done, counts)?;
    expect(&rt, "list", first, &[], &[], Status::Done, FIRST_LIST)?;
    expect(&rt, "check", b"", &[], &[], Status::Done, NOTHING)?;
    let twice = b"main() {} main() {}";
    let refused = b"refused: DuplicateName at 1:11\n";
    expect(&rt, "check", twice, &[], &[], Status::NameRefused, refused)?;
    let no_entry = "run 10 1 main";
    expect(&rt, no_entry, b"", &[], &[0], Status::NameRefused, b"")
}

#[test]
fn reads_up_to_the_limit(rt: HostRuntime) -> Result<(), Fail> {
    let alloc = rt.alloc();
    let spaces = vec![in alloc; b' '; 1_048_577]?;
    let run = "run 100 1 main";
    let too_large = b"refused: more than 1048576 bytes\n";
    expect(
        &rt,
        run,
        spaces.as_slice(),
        &[],
        &[],
        Status::TooLarge,
        too_large,
    )?;
    let spaces = vec![in alloc; b' '; 1_048_576]?;
    expect(
        &rt,
        "check",
        spaces.as_slice(),
        &[],
        &[],
        Status::Done,
        NOTHING,
    )
}
