//! What no clause says: that files are opened by their names, in their order, and what is written of one that can't be read.
use base::Status;
use std::hash::RandomState;
use std::io;
use std::io::{ErrorKind, Read};
use std::test::Fail;
use yds_port::{MemorySink, StdSource};
use yds_trace_files::{Files, Opens};
use yds_trace_run::run;

const FRONT: &[u8] = b"\
  <idle>-0 [000] d..2. 5.000000: cpu_frequency: state=1000000 cpu_id=0
  <idle>-0 [000] d..2. 5.001000: sched_waking: comm=t pid=7 prio=120 target_cpu=000
";

const BACK: &[u8] = b"\
  <idle>-0 [000] d..2. 5.001000: sched_switch: prev_comm=swapper prev_pid=0 prev_prio=120 prev_state=R ==> next_comm=t next_pid=7 next_prio=120
  t-7 [000] d..2. 5.003000: sched_switch: prev_comm=t prev_pid=7 prev_prio=120 prev_state=S ==> next_comm=swapper next_pid=0 next_prio=120";

const DOCUMENT: &[u8] = b"\
# CPU 0 of a kernel trace; time 0 is 5.001000000 s
# time unit 10 us, speed unit 10000 kHz, work unit 100 cycles
job t.0 0 1000 20000
ticks 1
run t.0 0 200 100
# 1 job written, none left out
";

/// A file whose reads give what is left of it, or fail.
#[derive(Drop)]
struct Page {
    rest: &'static [u8],
    fails: bool,
}

impl Read for Page {
    fn read(&mut self, buffer: &mut [u8]) -> io::Result<usize> {
        if self.fails {
            return Err(io::Error::from(ErrorKind::Other));
        }
        self.rest.read(buffer)
    }
}

/// Files of these names.
#[derive(Drop)]
struct Shelf;

impl Opens for Shelf {
    ghost use Rattle.std.specs.Prelude.{None};

    type Opened = StdSource<Page>;

    ghost holds = { λ _ _. None };

    fn open(&self, name: &str) -> Option<StdSource<Page>> {
        let rest = match name {
            "front" => FRONT,
            "back" => BACK,
            "cut" => &FRONT[..FRONT.len() - 1],
            "empty" | "broken" | "-" => b"".as_slice(),
            _ => return None,
        };
        let fails = name == "broken" || name == "-";
        Some(StdSource::new(Page { rest, fails }))
    }
}

#[test]
fn files_are_read_in_their_order(rt: HostRuntime) -> Result<(), Fail> {
    let cases = [
        (["front", "empty", "back"], Status::Done, DOCUMENT),
        (["empty", "front", "back"], Status::Done, DOCUMENT),
        (
            ["front", "none", "back"],
            Status::ReadFault,
            b"# file 2 (none): it can't be opened; see that it is there and may be read\nfailed\n".as_slice(),
        ),
        (
            ["front", "back", "broken"],
            Status::ReadFault,
            b"# file 2 (back): it ends within a line, and another file stands behind it; give whole files\nfailed\n".as_slice(),
        ),
        (
            ["empty", "front", "broken"],
            Status::ReadFault,
            b"# file 3 (broken): it couldn't be read to its end; give it anew, or leave it out if it is a folder\nfailed\n".as_slice(),
        ),
        (
            ["cut", "empty", "back"],
            Status::ReadFault,
            b"# file 1 (cut): it ends within a line, and another file stands behind it; give whole files\nfailed\n".as_slice(),
        ),
        (
            ["front", "-", "back"],
            Status::ReadFault,
            b"# the input couldn't be read to its end; give it anew\nfailed\n".as_slice(),
        ),
    ];
    for (names, status, want) in cases {
        let alloc = rt.alloc();
        let mut words = Vec::new(alloc);
        words.push(String::from_str(alloc, "--tasks=t:10")?)?;
        let mut source = Files::new(Shelf, &names);
        let mut sink = MemorySink::with_room(alloc, 3_000, 3_000, Vec::new(alloc))?;
        let ended = run(
            alloc,
            RandomState::new(&rt)?,
            &words,
            &mut source,
            &mut sink,
        );
        assert_eq!(rt; ended, status, "{}", names[1]);
        assert_eq!(rt; sink.bytes(), want, "{}", names[1]);
    }
    Ok(())
}
