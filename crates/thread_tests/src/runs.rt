//! Runs of plans over files in memory.
ghost use Rattle.std.specs.Prelude.{◌≤◌};

use cedr_base::{Change, OutOfMemory};
use cedr_guard::Refusal;
use cedr_history::Reader;
use cedr_io::ListSource;
use cedr_plan::read_plan;
use cedr_pool::run_pool;
use cedr_text::{LineFault, write_change};
use plan_answer::{FaultySource, find_sources};
use plan_report::{Outcome, Report, Watcher};
use plan_threads::run_threads;
use std::alloc::Global;
use std::sync::atomic::{AtomicU64, Ordering};
use std::sync::{Arc, Wait};
use std::test::Fail;
use std::thread::Threads;
use std::time::Clock;
use test_outside::{Holding, NO_READ, files_of};

const UNION: &str = r#"{"version":1,"nodes":[
 {"name":"u","op":"source","file":"u.csv","fields":["text"]},
 {"name":"v","op":"source","file":"v.csv","fields":["text"]},
 {"name":"n","op":"union","from":["u","v"]},
 {"name":"out","op":"output","from":["n"],"level":"strong"}]}"#;

const DIAMOND: &str = r#"{"version":1,"edge":1,"nodes":[
 {"name":"s","op":"source","file":"s.csv","fields":["text"]},
 {"name":"p","op":"window","from":["s"],"width":4},
 {"name":"q","op":"shift","from":["s"],"by":2},
 {"name":"j","op":"join","from":["p","q"],"where":[[0,"=",{"column":1}]]},
 {"name":"out","op":"output","from":["j"],"level":"strong"}]}"#;

const EIGHT: &str = r#"{"version":1,"edge":1,"nodes":[
 {"name":"s","op":"source","file":"s.csv","fields":["text"]},
 {"name":"a","op":"shift","from":["s"],"by":1},
 {"name":"b","op":"shift","from":["s"],"by":2},
 {"name":"c","op":"shift","from":["s"],"by":3},
 {"name":"d","op":"shift","from":["s"],"by":4},
 {"name":"e","op":"shift","from":["s"],"by":5},
 {"name":"f","op":"shift","from":["s"],"by":6},
 {"name":"g","op":"shift","from":["s"],"by":7},
 {"name":"h","op":"shift","from":["s"],"by":8},
 {"name":"m","op":"union","from":["a","b","c","d"]},
 {"name":"n","op":"union","from":["e","f","g","h"]},
 {"name":"o","op":"union","from":["m","n"]},
 {"name":"out","op":"output","from":["o"],"level":"strong"}]}"#;

const WEAK: &str = r#"{"version":1,"nodes":[
 {"name":"s","op":"source","file":"s.csv","fields":["text"]},
 {"name":"out","op":"output","from":["s"],"level":{"block":0,"memory":5}}]}"#;

pub(crate) const MIDDLE: &str = r#"{"version":1,"nodes":[
 {"name":"s","op":"source","file":"s.csv","fields":["text"]},
 {"name":"out","op":"output","from":["s"]}]}"#;

/// Which turns of the first worker are held.
#[derive(Clone, Copy)]
enum Held {
    None,
    /// All, until the second worker has turned.
    UntilSecond,
    /// From the hundredth on, until the watcher has read a change.
    UntilRead,
}

/// How many threads a pool has.
#[derive(Clone, Copy)]
enum Size {
    One,
    Two,
    Four,
    Sixteen,
}

impl Size {
    fn threads(self) -> usize
        ensures { (1 ≤ result) × (result ≤ 16) }
    {
        match self {
            Size::One => 1,
            Size::Two => 2,
            Size::Four => 4,
            Size::Sixteen => 16,
        }
    }
}

/// How the workers of a plan are turned.
#[derive(Clone, Copy)]
enum Way {
    /// Each on a thread of its own.
    Threads,
    Pool(Size),
}

/// How a run ends.
#[derive(Clone, Copy)]
enum End<'a> {
    /// These are the lines of its result.
    Done(&'a str),
    Read,
    Events(&'static [FaultySource]),
}

/// A run over files in memory.
#[derive(Clone, Copy)]
struct Case<'a> {
    title: &'static str,
    files: &'a [(&'a str, &'a str)],
    /// A read gives at most so many bytes.
    piece: usize,
    /// The file of which a read is refused, and the number of that read.
    refused: (&'static str, u64),
    held: Held,
    end: End<'a>,
}

const FAULTS: [FaultySource; 2] = [
    FaultySource {
        place: 0,
        refusal: Refusal {
            line: 1,
            fault: LineFault::EmptyLife,
        },
    },
    FaultySource {
        place: 1,
        refusal: Refusal {
            line: 1,
            fault: LineFault::UnknownId,
        },
    },
];

const CASES: [(&str, Case<'static>); 4] = [
    (
        EIGHT,
        Case {
            title: "a source may feed eight nodes",
            files: &[("s.csv", "+,1,0,1,a\n")],
            piece: 4096,
            refused: NO_READ,
            held: Held::None,
            end: End::Done(
                "+,1,2,a\n+,2,3,a\n+,3,4,a\n+,4,5,a\n+,5,6,a\n+,6,7,a\n+,7,8,a\n+,8,9,a\n",
            ),
        },
    ),
    (
        UNION,
        Case {
            title: "a refused read comes before faulty lines",
            files: &[
                ("u.csv", "+,1,5,4,a\n"),
                ("v.csv", "+,1,1,3,b\n=,9\n+,2,20,30,c\n"),
            ],
            piece: 8,
            refused: ("v.csv", 3),
            held: Held::None,
            end: End::Read,
        },
    ),
    (
        UNION,
        Case {
            title: "each faulty source is told",
            files: &[("u.csv", "+,1,5,4,a\n"), ("v.csv", "-,3,1\n")],
            piece: 4096,
            refused: NO_READ,
            held: Held::None,
            end: End::Events(&FAULTS),
        },
    ),
    (
        UNION,
        Case {
            title: "workers run beside each other",
            files: &[("u.csv", "+,1,1,2,a\n"), ("v.csv", "+,1,1,3,b\n")],
            piece: 4096,
            refused: NO_READ,
            held: Held::UntilSecond,
            end: End::Done("+,1,2,a\n+,1,3,b\n"),
        },
    ),
];

const DIAMOND_CASE: Case<'static> = Case {
    title: "a diamond gives one answer however its threads run",
    files: &[("s.csv", "+,1,0,10,a\n+,2,1,3,b\n")],
    piece: 4096,
    refused: NO_READ,
    held: Held::None,
    end: End::Done("+,2,4,a,a\n"),
};

const CHAIN_CASE: Case<'static> = Case {
    title: "up to 64 nodes run on as many threads",
    files: &[("s.csv", "+,1,1,10,a\n+,2,2,9,b\n-,1,5\n")],
    piece: 4096,
    refused: NO_READ,
    held: Held::None,
    end: End::Done("+,1,10,a\n+,2,9,b\n-,5,1,10,a\n"),
};

const WEAK_CASE: Case<'static> = Case {
    title: "what was forgotten is told by node and port",
    files: &[("s.csv", "+,1,1,2,a\n+,2,20,30,b\n+,3,10,40,c\n-,3,25\n")],
    piece: 4096,
    refused: NO_READ,
    held: Held::None,
    end: End::Read,
};

const MIDDLE_CASE: Case<'static> = Case {
    title: "each worker moved what went over its edges",
    files: &[("s.csv", "+,1,1,10,a\n=,4\n")],
    piece: 4096,
    refused: NO_READ,
    held: Held::None,
    end: End::Read,
};

/// Counts the changes that it has read, and sets a flag once it has read some.
#[derive(Drop)]
struct Counts {
    alloc: Global,
    count: usize,
    some: Arc<AtomicU64, Global>,
    lacked: bool,
}

impl Watcher for Counts {
    ghost use Rattle.std.specs.Prelude.{◌≡◌, length};

    type Out = ();

    ghost stands = { λ _ w _ list. w.count ≡ length list };

    ghost lacked = { λ w. w.lacked };

    fn look(&mut self, reader: &mut Reader, _out: &mut ()) -> Result<bool, OutOfMemory> {
        let mut nothing = Vec::new(self.alloc);
        match reader.read(0, 0, &mut nothing) {
            Ok(None) => Ok(false),
            Ok(Some(seen)) => {
                if seen.len > 0 {
                    self.some.store(1, Ordering::SeqCst);
                }
                self.count = seen.len;
                Ok(true)
            }
            Err(OutOfMemory) => {
                self.lacked = true;
                Err(OutOfMemory)
            }
        }
    }
}

/// The gate of a case, whose watcher sets this flag.
fn gate_of(
    alloc: Global,
    held: Held,
    some: &Arc<AtomicU64, Global>,
) -> Result<Arc<Holding, Global>, OutOfMemory> {
    match held {
        Held::None => Holding::until(alloc, u64::MAX, some),
        Held::UntilSecond => Holding::until_second(alloc),
        Held::UntilRead => Holding::until(alloc, 99, some),
    }
}

/// What the run of a plan reports, whose watcher sets this flag.
fn reported<R: Threads + Wait + Clock + Copy + Drop + Send + Sync + 'static>(
    rt: R,
    alloc: Global,
    plan: &str,
    case: &Case<'_>,
    way: Way,
    some: Arc<AtomicU64, Global>,
    gate: &Arc<Holding, Global>,
) -> Result<Report<ListSource>, Fail> {
    let plan = read_plan(alloc, plan.as_bytes())?;
    let mut files = files_of(alloc, case.files, case.piece, case.refused)?;
    let sources = find_sources(alloc, plan.nodes.as_slice(), &mut files)?;
    let mut watcher = Counts {
        alloc,
        count: 0,
        some,
        lacked: false,
    };
    let ran = match way {
        Way::Threads => run_threads(rt, alloc, &plan, sources, &mut watcher, &mut (), gate),
        Way::Pool(size) => run_pool(rt, alloc, size.threads(), &plan, sources, &**gate),
    };
    match ran {
        Ok(report) => Ok(report),
        Err(_) => Err(Fail::new("there is memory")),
    }
}

/// Runs a plan by the gate of its case. What is reported, and whether the turns were held as they are to be.
fn run<R: Threads + Wait + Clock + Copy + Drop + Send + Sync + 'static>(
    rt: R,
    alloc: Global,
    plan: &str,
    case: &Case<'_>,
    way: Way,
) -> Result<(Report<ListSource>, bool), Fail> {
    let some = Arc::new(alloc, AtomicU64::new(0))?;
    let gate = gate_of(alloc, case.held, &some)?;
    let report = reported(rt, alloc, plan, case, way, some, &gate)?;
    let held = gate.held();
    Ok((report, held))
}

/// The lines of changes.
fn lines(alloc: Global, changes: &[Change]) -> Result<Vec<u8>, OutOfMemory> {
    let mut text = Vec::new(alloc);
    for change in changes {
        write_change(change, &mut text)?;
    }
    Ok(text)
}

/// Whether a run ended so.
fn ended_as(alloc: Global, report: &Report<ListSource>, end: End<'_>) -> Result<bool, OutOfMemory> {
    match (&report.outcome, end) {
        (Outcome::Done, End::Done(wanted)) => {
            let text = lines(alloc, report.changes.as_slice())?;
            Ok(text.as_slice() == wanted.as_bytes())
        }
        (Outcome::Read, End::Read) => Ok(true),
        (Outcome::Events(faults), End::Events(wanted)) => Ok(faults.as_slice() == wanted),
        _ => Ok(false),
    }
}

/// Whether a run of a plan ends as its case says, and the gate held.
fn is_so<R: Threads + Wait + Clock + Copy + Drop + Send + Sync + 'static>(
    rt: R,
    alloc: Global,
    plan: &str,
    case: &Case<'_>,
    way: Way,
) -> Result<bool, Fail> {
    let (report, held) = run(rt, alloc, plan, case, way)?;
    Ok(ended_as(alloc, &report, case.end)? && held)
}

#[test]
fn runs_end_as_their_cases_say(rt: HostRuntime) -> Result<(), Fail> {
    for (plan, case) in &CASES {
        assert!(rt;
            is_so(rt, rt.alloc(), plan, case, Way::Threads)?,
            "{}",
            case.title
        );
    }
    Ok(())
}

/// So many insertions, each of an event for one time more, and the changes that they are.
fn insertions(alloc: Global, count: u64) -> Result<(String, String), Fail> {
    let mut lines = String::new(alloc);
    let mut changes = String::new(alloc);
    for begin in 0..count {
        let end = begin.saturating_add(1);
        lines.push_str(format!(in alloc; "+,{begin},{begin},{end},a\n")?.as_str())?;
        changes.push_str(format!(in alloc; "+,{begin},{end},a\n")?.as_str())?;
    }
    Ok((lines, changes))
}

/// A file and its text.
fn named<'a>(name: &'a str, text: &'a str) -> (&'a str, &'a str) {
    (name, text)
}

/// A run over these files whose source is read on from its hundredth turn when the watcher has read a change.
fn read_before_the_end<'a>(files: &'a [(&'a str, &'a str)], changes: &'a str) -> Case<'a> {
    Case {
        title: "the hundredth turn of the source waits until a change was read",
        files,
        piece: 4096,
        refused: NO_READ,
        held: Held::UntilRead,
        end: End::Done(changes),
    }
}

#[test]
fn changes_are_read_before_their_source_ended(rt: HostRuntime) -> Result<(), Fail> {
    let (lines, changes) = insertions(rt.alloc(), 1000)?;
    let files = [named("s.csv", lines.as_str())];
    let case = read_before_the_end(&files, changes.as_str());
    assert!(rt;
        is_so(rt, rt.alloc(), MIDDLE, &case, Way::Threads)?,
        "{}",
        case.title
    );
    Ok(())
}

#[test]
fn pools_end_as_the_cases_say(rt: HostRuntime) -> Result<(), Fail> {
    for size in [Size::Two, Size::Sixteen] {
        for (plan, case) in &CASES {
            assert!(rt;
                is_so(rt, rt.alloc(), plan, case, Way::Pool(size))?,
                "{}",
                case.title
            );
        }
    }
    Ok(())
}

#[test]
fn a_diamond_gives_one_answer_however_a_pool_runs(rt: HostRuntime) -> Result<(), Fail> {
    for turn in 0..100u8 {
        assert!(rt;
            is_so(
                rt,
                rt.alloc(),
                DIAMOND,
                &DIAMOND_CASE,
                Way::Pool(Size::Four)
            )?,
            "turn {turn}"
        );
    }
    for size in [Size::One, Size::Two, Size::Sixteen] {
        assert!(rt;
            is_so(rt, rt.alloc(), DIAMOND, &DIAMOND_CASE, Way::Pool(size))?,
            "{} threads",
            size.threads()
        );
    }
    Ok(())
}

#[test]
fn a_diamond_gives_one_answer_however_its_threads_run(rt: HostRuntime) -> Result<(), Fail> {
    for turn in 0..100u8 {
        assert!(rt;
            is_so(rt, rt.alloc(), DIAMOND, &DIAMOND_CASE, Way::Threads)?,
            "turn {turn}"
        );
    }
    Ok(())
}

/// A chain of so many selects, over edges that have room for one message.
fn chain(alloc: Global, selects: usize) -> Result<String, Fail> {
    let mut text = String::from_str(
        alloc,
        r#"{"version":1,"edge":1,"nodes":[{"name":"n0","op":"source","file":"s.csv","fields":["text"]}"#,
    )?;
    for place in 0..selects {
        let next = place.saturating_add(1);
        let node = format!(in alloc;
            ",{{\"name\":\"n{next}\",\"op\":\"select\",\"from\":[\"n{place}\"],\"where\":[]}}"
        )?;
        text.push_str(node.as_str())?;
    }
    let last = format!(in alloc;
        ",{{\"name\":\"out\",\"op\":\"output\",\"from\":[\"n{selects}\"]}}]}}"
    )?;
    text.push_str(last.as_str())?;
    Ok(text)
}

#[test]
fn up_to_64_nodes_run_on_as_many_threads(rt: HostRuntime) -> Result<(), Fail> {
    for selects in [1, 40, 62] {
        let plan = chain(rt.alloc(), selects)?;
        assert!(rt;
            is_so(rt, rt.alloc(), plan.as_str(), &CHAIN_CASE, Way::Threads)?,
            "{selects} selects"
        );
        assert!(rt;
            is_so(
                rt,
                rt.alloc(),
                plan.as_str(),
                &CHAIN_CASE,
                Way::Pool(Size::Four)
            )?,
            "{selects} selects in a pool"
        );
    }
    Ok(())
}

/// Whether the one port of the output is told, as the one that forgot two changes.
fn is_forgotten(report: &Report<ListSource>) -> bool {
    match report.forgotten.as_slice() {
        [port] => port.node == 1 && port.port == 0 && port.list.len() == 2,
        _ => false,
    }
}

/// Whether the two workers of a source and an output moved three messages, over their edge.
fn has_moved_three(report: &Report<ListSource>) -> bool {
    let ([edge], [source, output]) = (report.edges.as_slice(), report.ran.as_slice()) else {
        return false;
    };
    let gave = (source.number(), source.taken(), source.put()) == (0, 0, 3);
    let took = (output.number(), output.taken(), output.put()) == (1, 3, 0);
    edge.count() == 3 && gave && took
}

#[test]
fn what_a_run_did_is_told(rt: HostRuntime) -> Result<(), Fail> {
    let (report, _) = run(rt, rt.alloc(), WEAK, &WEAK_CASE, Way::Threads)?;
    assert!(rt; is_forgotten(&report));
    let (report, _) = run(rt, rt.alloc(), MIDDLE, &MIDDLE_CASE, Way::Threads)?;
    assert!(rt; has_moved_three(&report));
    Ok(())
}
