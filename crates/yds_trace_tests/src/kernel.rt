//! Real lines of the formats, and what they say.
ghost use Rattle.std.specs.Prelude.{◌≡◌};

use std::test::Fail;
use yds_kernel::{
    Event, Happening, LineFault, Reason, Said, Since, State, Thread, last_line, line,
};

fn thread(name: &[u8], pid: u64) -> Thread<'_>
    ensures { result.pid ≡ pid }
{
    Thread { name, pid }
}

fn event<'a>(processor: u64, time: u64, happening: Happening<'a>) -> Said<'a> {
    Said::Event(Event {
        processor,
        time,
        happening,
    })
}

#[test]
fn switches_of_each_format(rt: HostRuntime) {
    let expected = event(
        0,
        5_123_402_629_706,
        Happening::Switch {
            previous: thread(b"audio", 1202),
            state: State::Sleeps,
            next: thread(b"decode", 1201),
        },
    );
    let short =
        b"           audio-1202  [000]  5123.402629706: sched_switch:         audio:1202 [98] S ==> decode:1201 [120]";
    assert_eq!(rt; line(short), Ok(expected));
    let raw =
        b"           audio-1202  [000]  5123.402629706: sched_switch:         prev_comm=audio prev_pid=1202 prev_prio=98 prev_state=1 next_comm=decode next_pid=1201 next_prio=120";
    assert_eq!(rt; line(raw), Ok(expected));
    let kernel =
        b"           audio-1202    [000] d..2.   5123.402629706: sched_switch: prev_comm=audio prev_pid=1202 prev_prio=98 prev_state=S ==> next_comm=decode next_pid=1201 next_prio=120";
    assert_eq!(rt; line(kernel), Ok(expected));
    let perf =
        b"          :1202 1202 [000]  5123.402629706:  sched:sched_switch: prev_comm=audio prev_pid=1202 prev_prio=98 prev_state=S ==> next_comm=decode next_pid=1201 next_prio=120";
    assert_eq!(rt; line(perf), Ok(expected));
}

#[test]
fn wake_ups_speeds_and_losses(rt: HostRuntime) {
    let woken =
        b"          <idle>-0        (-----) [000] d..3   5123.400624: sched_wakeup: comm=audio pid=1202 prio=98 success=1 target_cpu=000";
    assert_eq!(rt;
        line(woken),
        Ok(event(
            0,
            5_123_400_624_000,
            Happening::WakeUp {
                thread: thread(b"audio", 1202),
                starts: false,
            }
        ))
    );
    let speed =
        b"     Web Content-1301    [001] d..2.   5123.400123: cpu_frequency: state=600000 cpu_id=0";
    let expected = Happening::Speed {
        processor: 0,
        khz: 600_000,
    };
    assert_eq!(rt; line(speed), Ok(event(1, 5_123_400_123_000, expected)));
    let lost = Said::Lost {
        processor: 0,
        since: Since::ItsLastLine,
    };
    assert_eq!(rt; line(b"CPU:0 [3 EVENTS DROPPED]"), Ok(lost));
    let started = Said::Lost {
        processor: 2,
        since: Since::TheBegin,
    };
    assert_eq!(rt; line(b"##### CPU 2 buffer started ####"), Ok(started));
}

#[test]
fn a_marker_is_no_switch_and_a_cut_line_is_refused(rt: HostRuntime) {
    let marker =
        b"             app-9     [001] .....   100.001500: tracing_mark_write: note [000] d..2. 100.001400: sched_switch: prev_comm=t prev_pid=7 prev_prio=120 prev_state=S ==> next_comm=swapper/0 next_pid=0 next_prio=120";
    assert_eq!(rt;
        line(marker),
        Ok(event(1, 100_001_500_000, Happening::Marker))
    );
    let cut = b"              sh-9     [002] d..2.     7.5: sched_swi";
    assert_eq!(rt; line(cut), Ok(Said::Nothing));
    let fault = LineFault {
        column: 54,
        reason: Reason::Cut,
    };
    assert_eq!(rt; last_line(cut), Err(fault));
}
