//! The program over readers and writers. What scripts show are scripts of `cases`, whose text `sim` is proved to write.
use Fault::{BadLine, ReadFailed, Usage, WriteFailed};
use async_task::Runtime;
use commands::Fault;
use commands::program::program;
use commands::sim::sim;
use jobs::{JobPlace, JobRealm, JobSite, Open};
use std::alloc::{AllocError, AllocGlobal, Global};
use std::error::Error;
use std::fmt::{Debug, Display};
use std::io::{self, ErrorKind, Read, Write};
use std::process::Abort;
use std::test::Fail;
use std::thread::Threads;

/// How many reads are tried.
const MOST_READS: u32 = 16_777_216;

/// A reader of a text, of which every other read is interrupted. It fails at the read of this number, counted from 0, and gives a
/// byte a read then.
#[derive(Drop)]
struct Source<'a> {
    text: &'a [u8],
    fails_at: Option<usize>,
    is_interrupted: bool,
}

impl Read for Source<'_> {
    fn read(&mut self, buf: &mut [u8]) -> io::Result<usize> {
        self.is_interrupted = !self.is_interrupted;
        if self.is_interrupted {
            return Err(io::Error::from(ErrorKind::Interrupted));
        }
        match self.fails_at {
            None => self.text.read(buf),
            Some(0) => Err(io::Error::from(ErrorKind::Other)),
            Some(reads) => {
                self.fails_at = Some(reads.saturating_sub(1));
                let most = buf.len().min(1);
                self.text.read(&mut buf[..most])
            }
        }
    }
}

/// A reader that is never over, and gives a byte a read.
#[derive(Drop)]
struct Endless(u32);

impl Read for Endless {
    fn read(&mut self, buf: &mut [u8]) -> io::Result<usize> {
        self.0 = self.0.saturating_add(1);
        match buf {
            [first, ..] => {
                *first = b'\n';
                Ok(1)
            }
            [] => Ok(0),
        }
    }
}

/// A writer. It fails at the write of this number, counted from 0, where a flush is one too, and takes a byte a write then.
#[derive(Drop)]
struct Sink {
    text: Vec<u8>,
    fails_at: Option<usize>,
}

impl Sink {
    /// How many bytes a write takes.
    fn step(&mut self, most: usize) -> io::Result<usize> {
        match self.fails_at {
            None => Ok(most),
            Some(0) => Err(io::Error::from(ErrorKind::Other)),
            Some(writes) => {
                self.fails_at = Some(writes.saturating_sub(1));
                Ok(most.min(1))
            }
        }
    }
}

impl Write for Sink {
    fn write(&mut self, buf: &[u8]) -> io::Result<usize> {
        let most = self.step(buf.len())?.min(buf.len());
        self.text.write(&buf[..most])
    }

    fn flush(&mut self) -> io::Result<()> {
        match self.step(0) {
            Ok(_) => Ok(()),
            Err(error) => Err(error),
        }
    }
}

/// The words behind the program's name, the input, and what is written, or the fault on which the program ends with nothing written.
struct Row(
    &'static [&'static str],
    &'static [u8],
    Result<&'static [u8], Fault>,
);

const TWO_JOBS: Row = Row(
    &["jobs", "2"],
    b"sum 10\nmul 18446744073709551615 2\n",
    Ok(b"0 55\n1 too large\n"),
);

const THREE_WAKES: Row = Row(
    &["sim"],
    b"limit 1\nspawn a keep\ntry\nwake a\nwake a\nwake a\ntry\ntry\n",
    Ok(
        b"spawn: ok\npoll a\npending a\ntry: true\nwake: done\nwake: done\nwake: done\n\
poll a\npending a\ntry: true\ntry: false\n",
    ),
);

// One loop goes through them, so that a call of the program is proved once.
const ROWS: &[Row] = &[
    TWO_JOBS,
    THREE_WAKES,
    Row(&["sim"], b"", Ok(b"")),
    Row(&["sim"], b"limit 1\ntry", Ok(b"try: false\n")),
    Row(&["sim"], b"limit 1\nfly\nrun\n", Err(BadLine(2))),
    Row(&["jobs", "1"], b"", Ok(b"")),
    Row(&["jobs", "64"], b"sum 0", Ok(b"0 0\n")),
    Row(&["jobs", "3"], b"sum 000007\n", Ok(b"0 28\n")),
    Row(
        &["jobs", "3"],
        b"mul 0 00000000000000000009\n",
        Ok(b"0 0\n"),
    ),
    Row(
        &["jobs", "1"],
        b"mul 18446744073709551615 00000000000000000001",
        Ok(b"0 18446744073709551615\n"),
    ),
    Row(&["jobs", "2"], b"sum 1000001\n", Err(BadLine(1))),
    Row(&["jobs", "2"], b"sum 1\n\nsum 2\n", Err(BadLine(2))),
    Row(
        &["jobs", "2"],
        b"sum 1\nmul 18446744073709551616 1\nsum\n",
        Err(BadLine(2)),
    ),
    Row(
        &["jobs", "2"],
        b"sum 000000000000000000001\n",
        Err(BadLine(1)),
    ),
    Row(&["jobs", "2"], b"mul 1  2\n", Err(BadLine(1))),
    Row(&["jobs", "2"], b"sum -1\n", Err(BadLine(1))),
    Row(&["jobs", "2"], b"sum 1\r\n", Err(BadLine(1))),
    Row(&["jobs", "2"], b"sum 1\nadd 1\n", Err(BadLine(2))),
    Row(&["jobs", "2"], b"sum 1\n\xff\xfe\0\n", Err(BadLine(2))),
    Row(&["jobs", "0"], b"sum 1\n", Err(Usage)),
    Row(&["jobs", "65"], b"sum 1\n", Err(Usage)),
    Row(&["jobs", "two"], b"sum 1\n", Err(Usage)),
    Row(&["jobs", ""], b"sum 1\n", Err(Usage)),
    Row(&["jobs", "+1"], b"sum 1\n", Err(Usage)),
    Row(&["jobs", "000000000000000000001"], b"sum 1\n", Err(Usage)),
    Row(&["sim", "1"], b"try\n", Err(Usage)),
    Row(&["jobs"], b"sum 1\n", Err(Usage)),
    Row(&["Sim"], b"try\n", Err(Usage)),
    Row(&[""], b"try\n", Err(Usage)),
];

fn texts(alloc: Global, words: &[&str]) -> Result<Vec<String>, AllocError> {
    let mut texts = Vec::new(alloc);
    for word in words {
        texts.push(String::from_str(alloc, word)?)?;
    }
    Ok(texts)
}

/// How the program ends on these words and this input, where a read or a write fails, and what it has written.
fn end<P: JobSite<R, Gate = Open> + Sync + Drop, R: Runtime + Threads + AllocGlobal + Sync>(
    rt: R,
    realm: &'static JobRealm<R>,
    words: &[&str],
    input: &[u8],
    read: Option<usize>,
    write: Option<usize>,
) -> (Result<(), Fault>, Vec<u8>) {
    let alloc = rt.alloc();
    let mut reader = Source {
        text: input,
        fails_at: read,
        is_interrupted: false,
    };
    let mut writer = Sink {
        text: Vec::new(alloc),
        fails_at: write,
    };
    let ended = match texts(alloc, words) {
        Ok(words) => {
            let words = words.as_slice();
            program::<P, R, Source<'_>, Sink>(rt, alloc, realm, words, &mut reader, &mut writer)
        }
        Err(error) => Err(Fault::from(error)),
    };
    (ended, writer.text)
}

/// Whether it ended so.
fn is_end(ended: (Result<(), Fault>, Vec<u8>), want: Result<&[u8], Fault>) -> bool {
    let (end, written) = ended;
    match want {
        Ok(text) => end.is_ok() & (written.as_slice() == text),
        Err(fault) => (end == Err(fault)) & written.is_empty(),
    }
}

/// Each row is shown.
fn show_rows<P, R>(rt: R, realm: &'static JobRealm<R>)
where
    P: JobSite<R, Gate = Open> + Sync + Drop,
    R: Runtime + Threads + AllocGlobal + Abort + Sync,
{
    for (number, Row(words, input, want)) in ROWS.iter().enumerate() {
        let ended = end::<P, R>(rt, realm, *words, *input, None, None);
        assert!(rt; is_end(ended, *want), "row {number}");
    }
}

/// Each read and each write that fails ends the program, up to those behind the whole text.
fn fail_each_step<P, R>(rt: R, realm: &'static JobRealm<R>, row: &Row)
where
    P: JobSite<R, Gate = Open> + Sync + Drop,
    R: Runtime + Threads + AllocGlobal + Abort + Sync,
{
    let Row(words, input, want) = row;
    for read in 0..=input.len() {
        let ended = end::<P, R>(rt, realm, *words, *input, Some(read), None);
        assert!(rt; is_end(ended, Err(ReadFailed)), "read {read}");
    }
    // A write for each byte, and the flush.
    let writes = want.unwrap_or(b"").len();
    for write in 0..=writes {
        let (ended, _) = end::<P, R>(rt, realm, *words, *input, None, Some(write));
        assert!(rt; ended == Err(WriteFailed), "write {write}");
    }
    let ended = end::<P, R>(
        rt,
        realm,
        *words,
        *input,
        None,
        Some(writes.saturating_add(1)),
    );
    assert!(rt; is_end(ended, *want), "all");
}

/// A hundred thousand jobs are done, each of which comes to 1, and a line more is bad.
fn do_most<P, R: Runtime + Threads + AllocGlobal + Abort + Sync>(rt: R, realm: &'static JobRealm<R>)
where
    P: JobSite<R, Gate = Open> + Sync + Drop,
{
    let job = "mul 1 1\n";
    let most = job.repeat(rt.alloc(), 100_000).expect(&rt, "memory");
    for workers in ["1", "4", "64"] {
        let words = ["jobs", workers];
        let (ended, written) = end::<P, R>(rt, realm, &words, most.as_bytes(), None, None);
        // A digit for each of the first ten numbers, two for the next 90 and so on, a blank, the answer and the line's end.
        assert!(rt;
            ended.is_ok() & (written.len() == 488_890 + 300_000),
            "{workers}"
        );
    }
    let more = job.repeat(rt.alloc(), 100_001).expect(&rt, "memory");
    let ended = end::<P, R>(rt, realm, &["jobs", "4"], more.as_bytes(), None, None);
    assert!(rt; is_end(ended, Err(BadLine(100_001))), "a line more");
}

/// All of the above: a call where the type of the runtime value is named costs far more to prove than one over any such type.
fn play<P, R: Runtime + Threads + AllocGlobal + Abort + Sync>(rt: R, realm: &'static JobRealm<R>)
where
    P: JobSite<R, Gate = Open> + Sync + Drop,
{
    show_rows::<P, R>(rt, realm);
    fail_each_step::<P, R>(rt, realm, &TWO_JOBS);
    fail_each_step::<P, R>(rt, realm, &THREE_WAKES);
    do_most::<P, R>(rt, realm);
}

#[test]
fn the_program_reads_and_writes_what_it_has_to(rt: HostRuntime) -> Result<(), Fail> {
    let realm = JobRealm::<HostRuntime>::leak(rt, rt.alloc())?;
    play::<JobPlace<Open, HostRuntime>, HostRuntime>(rt, realm);
    Ok(())
}

/// Whether `sim` gives a reader up that is never over, after the most reads.
fn gives_up(alloc: Global) -> bool {
    let (mut reader, mut written) = (Endless(0), Vec::new(alloc));
    let ended = sim(alloc, &mut reader, &mut written);
    (ended == Err(ReadFailed)) & (reader.0 == MOST_READS)
}

#[test]
fn a_reader_that_is_never_over_is_given_up(rt: HostRuntime) {
    assert!(rt; gives_up(rt.alloc()));
}

/// Copies, compares, is an error, and is written for a reader of the code and for whoever started the program.
fn is_plain<T: Clone + Copy + PartialEq + Eq + Debug + Display + Error + Send + Sync + Drop>(
    value: T,
) -> bool {
    let copy = value;
    copy == value
}

/// Whether each fault is a plain value, and equals itself alone.
fn are_plain(faults: &[Fault]) -> bool {
    let (mut are_so, mut equals) = (true, 0u64);
    for fault in faults {
        are_so = are_so & is_plain(*fault);
        for other in faults {
            if fault == other {
                equals = equals.saturating_add(1);
            }
        }
    }
    are_so & (equals == faults.len() as u64)
}

#[test]
fn faults_are_plain_values(rt: HostRuntime) {
    let faults = [
        Fault::Missing(3),
        BadLine(3),
        BadLine(1),
        Usage,
        Fault::NoMemory,
        Fault::NoThread,
        Fault::NoRandom,
        ReadFailed,
        WriteFailed,
    ];
    assert!(rt; are_plain(&faults));
}
