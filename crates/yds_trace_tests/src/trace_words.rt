//! What no clause says: that words are taken with their values, and what is written of those that can't be.
use base::Memory;
use std::alloc::Global;
use std::test::Fail;
use yds_trace_words::{NoRequest, Request, fault_line, inputs, read_words};

/// These words, each up to a blank.
fn words(alloc: Global, line: &str) -> Result<Vec<String>, Memory> {
    let mut words = Vec::new(alloc);
    for word in line.split_whitespace() {
        words.push(String::from_str(alloc, word)?)?;
    }
    Ok(words)
}

/// What is asked by these words: numbers, and then each task.
fn asked(alloc: Global, line: &str) -> Result<String, Fail> {
    let words = words(alloc, line)?;
    match read_words(alloc, &words) {
        Ok(Request::Help) => Ok(String::from_str(alloc, "help")?),
        Ok(Request::Version) => Ok(String::from_str(alloc, "version")?),
        Ok(Request::Threads) => Ok(String::from_str(alloc, "threads")?),
        Ok(
            Request::Trace {
                asked,
                bounds,
                strict,
            },
        ) => Ok(format!(in alloc; "{:?} {:?} {strict}", asked, bounds)?),
        Err(NoRequest::Fault(fault)) => {
            Ok(String::from_str(alloc, fault_line(&fault).as_str())?)
        }
        Err(NoRequest::Memory) => Ok(String::from_str(alloc, "memory")?),
    }
}

#[test]
fn words_ask(rt: HostRuntime) -> Result<(), Fail> {
    let cases = [
        ("--help --nonsense", "help"),
        ("--cpu 1 --version", "version"),
        (
            "--tasks a:16.667:2 --cpu=3 --strict --from 1.5 --to 9223372036.854775807 --start 600000 --begin run --lost=cut --us 1 --khz 7 --parts",
            "Asked { tasks: [Task { label: [97], thread: Named([97]), deadline: 16667000, apart: 2000000, period: 0 }], processor: 3, unit: 1000, khz: 7, start: Same(600000), from: None, to: None, begin_at_run: true, cut_losses: true, in_parts: true, everywhere: false, moved_parts: false, others: None } Bounds { from: Some(Clock(1500000000)), to: Some(Clock(9223372036854775807)) } true",
        ),
        (
            "--tasks 7=a\\,b:1,c\\:\\d\\\\:0.01",
            "Asked { tasks: [Task { label: [97, 44, 98], thread: Numbered(7), deadline: 1000000, apart: 0, period: 0 }, Task { label: [99, 58, 92, 100, 92], thread: Named([99, 58, 92, 100, 92]), deadline: 10000, apart: 0, period: 0 }], processor: 0, unit: 10000, khz: 10000, start: Listed([]), from: None, to: None, begin_at_run: false, cut_losses: false, in_parts: false, everywhere: false, moved_parts: false, others: None } Bounds { from: None, to: None } false",
        ),
        (
            "--cpu all --tasks a:1",
            "Asked { tasks: [Task { label: [97], thread: Named([97]), deadline: 1000000, apart: 0, period: 0 }], processor: 0, unit: 10000, khz: 10000, start: Listed([]), from: None, to: None, begin_at_run: false, cut_losses: false, in_parts: true, everywhere: true, moved_parts: false, others: None } Bounds { from: None, to: None } false",
        ),
        (
            "--others=spans --tasks a:1 --moved parts --cpu 5 --from=+0.5 --to 0.25",
            "Asked { tasks: [Task { label: [97], thread: Named([97]), deadline: 1000000, apart: 0, period: 0 }], processor: 5, unit: 10000, khz: 10000, start: Listed([]), from: None, to: None, begin_at_run: false, cut_losses: false, in_parts: false, everywhere: false, moved_parts: true, others: Some(5) } Bounds { from: Some(AfterFirst(500000000)), to: Some(Clock(250000000)) } false",
        ),
        (
            "--start 0:600000,8191:4294967295,4:1 --tasks a:1",
            "Asked { tasks: [Task { label: [97], thread: Named([97]), deadline: 1000000, apart: 0, period: 0 }], processor: 0, unit: 10000, khz: 10000, start: Listed([StartSpeed { processor: 0, khz: 600000 }, StartSpeed { processor: 8191, khz: 4294967295 }, StartSpeed { processor: 4, khz: 1 }]), from: None, to: None, begin_at_run: false, cut_losses: false, in_parts: false, everywhere: false, moved_parts: false, others: None } Bounds { from: None, to: None } false",
        ),
        (
            "--fixed 600000 --tasks a:16::20,b:16:15:0.000001",
            "Asked { tasks: [Task { label: [97], thread: Named([97]), deadline: 16000000, apart: 0, period: 20000000 }, Task { label: [98], thread: Named([98]), deadline: 16000000, apart: 15000000, period: 1 }], processor: 0, unit: 10000, khz: 10000, start: Fixed(600000), from: None, to: None, begin_at_run: false, cut_losses: false, in_parts: false, everywhere: false, moved_parts: false, others: None } Bounds { from: None, to: None } false",
        ),
        ("--tasks ?", "threads"),
    ];
    for (line, want) in cases {
        assert_eq!(rt; asked(rt.alloc(), line)?.as_str(), want, "{line}");
    }
    Ok(())
}

#[test]
fn words_are_refused_by_name(rt: HostRuntime) -> Result<(), Fail> {
    let cases = [
        (
            "--task a:1",
            "# --task: no such word; --help lists them\nfailed\n",
        ),
        (
            "--tasks a:1 file -x",
            "# -x: no such word; --help lists them\nfailed\n",
        ),
        (
            "--cpu 1 --tasks a:1 --cpu 1",
            "# --cpu: given twice; give it once\nfailed\n",
        ),
        (
            "--tasks a:1 --us",
            "# --us: its value is missing; write it behind\nfailed\n",
        ),
        (
            "--tasks a:1,b:2,a:3",
            "# --tasks, task 1: another task has the same name; write PID=NAME:DEADLINE with another name\nfailed\n",
        ),
        (
            "--tasks a:1,b:0.009999",
            "# --tasks, task 2: its deadline is less than a unit of time; write a later one, or a smaller unit by --us\nfailed\n",
        ),
        (
            "--tasks a:16.6670001",
            "# --tasks, task 1: no deadline; write milliseconds to 9223372036854.775807, with at most six digits behind the point\nfailed\n",
        ),
        (
            "--tasks 7=a:1,7=b:1",
            "# --tasks, task 1: another task is the same thread; list it once\nfailed\n",
        ),
        (
            "--tasks a:1 --from 2 --to 2.000000000",
            "# --from: not before --to; give an earlier time, or a later one there\nfailed\n",
        ),
        (
            "--tasks a:1 --from +2 --to +2",
            "# --from: not before --to; give an earlier time, or a later one there\nfailed\n",
        ),
        (
            "--tasks a:1 --to +",
            "# --to: no time; write seconds to 9223372036.854775807, with at most nine digits behind the point; +2 counts from the first line\nfailed\n",
        ),
        (
            "--cpu 8192",
            "# --cpu: no number of a processor; write a whole number from 0 to 8191, or all\nfailed\n",
        ),
        (
            "--tasks a:1 --start 0",
            "# --start: no speed; write whole kilohertz from 1 to 4294967295\nfailed\n",
        ),
        (
            "--tasks a:1 --start 0:600000,4:0",
            "# --start, speed 2: no speed; write whole kilohertz from 1 to 4294967295\nfailed\n",
        ),
        (
            "--tasks a:1 --start 0:600000,8192:600000",
            "# --start, speed 2: no number of a processor before the colon; write a whole number from 0 to 8191\nfailed\n",
        ),
        (
            "--tasks a:1 --start 1:5,0:6,4:7,0:6",
            "# --start, speed 2: another speed is of the same processor; give it once\nfailed\n",
        ),
        (
            "--tasks a:1 --start 0:600000,700000",
            "# --start, speed 2: no colon behind the processor; write CPU:KHZ, with the speed in kilohertz, or one speed for all processors\nfailed\n",
        ),
        (
            "--tasks a:1 --start 0:600000,",
            "# --start, speed 2: no colon behind the processor; write CPU:KHZ, with the speed in kilohertz, or one speed for all processors\nfailed\n",
        ),
        (
            "--tasks a:1 --start 0:6:5",
            "# --start, speed 1: no speed; write whole kilohertz from 1 to 4294967295\nfailed\n",
        ),
        (
            "--tasks a:1 --fixed 0",
            "# --fixed: no speed; write whole kilohertz from 1 to 4294967295\nfailed\n",
        ),
        (
            "--fixed 5 --tasks a:1 --start 5",
            "# --fixed: given with --start; give one of both\nfailed\n",
        ),
        (
            "--tasks a:16,b:16:",
            "# --tasks, task 2: no time behind the second colon; write milliseconds, with at most six digits behind the point\nfailed\n",
        ),
        (
            "--tasks a:16::0",
            "# --tasks, task 1: no time above 0 behind the third colon; write milliseconds, with at most six digits behind the point\nfailed\n",
        ),
        (
            "--tasks ? --from 1",
            "# --from: it says nothing of the list of threads; leave it out, or name the tasks\nfailed\n",
        ),
        (
            "--tasks ? --others spans",
            "# --others: it says nothing of the list of threads; leave it out, or name the tasks\nfailed\n",
        ),
        (
            "--tasks a:1 --moved whole",
            "# --moved: no way to tell of jobs that moved; write parts, or leave it out\nfailed\n",
        ),
        (
            "--tasks a:1 --others",
            "# --others: its value is missing; write it behind\nfailed\n",
        ),
        (
            "--tasks a:1 --cpu all --others span",
            "# --others: nothing else is told of other threads; write spans, or leave it out\nfailed\n",
        ),
        (
            "--tasks a:1 --others spans --cpu all",
            "# --others: it is told of one processor; give its number with --cpu\nfailed\n",
        ),
        (
            "--parts --tasks a:1 --parts",
            "# --parts: given twice; give it once\nfailed\n",
        ),
        (
            "--parts=1",
            "# --parts: it has no value; leave out the equals sign and what is behind it\nfailed\n",
        ),
        (
            "--strict=1",
            "# --strict: it has no value; leave out the equals sign and what is behind it\nfailed\n",
        ),
    ];
    for (line, want) in cases {
        assert_eq!(rt; asked(rt.alloc(), line)?.as_str(), want, "{line}");
    }
    Ok(())
}

#[test]
fn words_are_files(rt: HostRuntime) -> Result<(), Fail> {
    let cases = [
        ("--tasks a:1 --cpu=3", "-"),
        ("one --tasks a:1 - two --parts one", "one - two one"),
        ("--tasks -- -- one --parts --", "one --parts --"),
    ];
    for (line, want) in cases {
        let alloc = rt.alloc();
        let words = words(alloc, line)?;
        let mut told = String::new(alloc);
        for name in inputs(alloc, &words)? {
            told.push_str(name)?;
            told.push_str(" ")?;
        }
        assert_eq!(rt; told.trim_end(), want, "{line}");
    }
    Ok(())
}
