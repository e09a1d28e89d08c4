use super::*;
use std::alloc::AllocError;
use std::process::Abort;
use std::test::Fail;

/// Words with spaces between them, an input, and the status and the text that answer them. The rows were worked by hand.
static ROWS: [(&str, &[u8], u8, &[u8]); 16] = [
    (
        "plan",
        b"job a 0 4 8\n",
        0,
        b"job a 0 4 8\nslot a 0 4 8\nlevel 8 4\npiece 0 4\nmember a\n",
    ),
    (
        "check",
        b"job a 0 4 8\nslot a 0 4 8\nlevel 8 4\npiece 0 4\nmember a\n",
        0,
        b"accepted\n",
    ),
    (
        "audit",
        b"job a 0 4 2\nslot a 3 5 2\n",
        1,
        b"late slot 1 a 5 deadline 4\n",
    ),
    ("audit --points", b"job a 0 4 2\n", 3, b"refused no-table\n"),
    (
        "round",
        b"job a 0 10 10\njob b 4 6 6\npoint 0 0\npoint 1 1\npoint 2 3\n",
        1,
        b"too-slow work 6 length 2 top 2\n",
    ),
    (
        "report --json",
        b"job a 0 12 4\njob b 2 10 8\njob c 4 6 6\n",
        0,
        b"{\"from\":0,\"idle\":0,\"jobs\":3,\"levels\":[{\"length\":2,\"speed\":\"3\",\"work\":6},{\"length\":6,\"speed\":\"1+1/3\",\"work\":8},{\"length\":4,\"speed\":\"1\",\"work\":4}],\"to\":12,\"work\":18}\n",
    ),
    (
        "curve",
        b"job a 0 12 4\njob b 2 10 8\njob c 4 6 6\n",
        0,
        b"break 0 18\nbreak 1 6\nbreak 1+1/3 3+1/3\nbreak 3 0\n",
    ),
    (
        "avr --grid 1",
        b"job a 0 4 4\njob b 2 4 2\n",
        0,
        b"job a 0 4 4\njob b 2 4 2\nslot a 0 2 2\nslot a 2 3 2\nslot b 3 4 2\ngrid 1 0\n",
    ),
    (
        "oa --grid 1",
        b"job a 0 3 2\njob b 1 2 1\n",
        0,
        b"job a 0 3 2\njob b 1 2 1\nslot a 0 1 1\nslot b 1 2 1\nslot a 2 3 1\ngrid 1 1\n",
    ),
    (
        "compare --grid 6",
        b"job a 0 3 2\njob b 1 2 1\npoint 0 0\npoint 1 1\npoint 2 3\n",
        0,
        b"plan energy 3\nplan time 0 0\nplan time 1 3\nplan time 2 0\navr energy 3+2/3\navr time 0 0+2/3\navr time 1 1+2/3\navr time 2 0+2/3\navr rounded 0\noa energy 3+1/3\noa time 0 0+1/3\noa time 1 2+1/3\noa time 2 0+1/3\noa rounded 0\n",
    ),
    (
        "admit 2",
        b"job a 0 4 4\njob b 0 2 4\njob c 1 3 1\n",
        0,
        b"job a 0 4 4\njob b 0 2 4\nslot b 0 2 4\nslot a 2 4 4\n# refuse c from 0 to 4 work 9 top 2\n",
    ),
    (
        "trial 0 2",
        b"",
        0,
        b"jobs 2\nlevels 2\nslots 2\npeak 53709 18257\naccepted\n",
    ),
    (
        "expand",
        b"horizon 10\ntask s 1 5 2 1\n",
        0,
        b"job s.0 1 3 1\njob s.1 6 8 1\n",
    ),
    ("plan", b"", 0, b""),
    ("plan", b"job a 0 4\n", 3, b"refused 1 10 FieldCount\n"),
    ("", b"job a 0 4 8\n", 2, USAGE),
];

/// The usage line.
const USAGE: &[u8] =
    b"usage: yds_cli plan | round | avr --grid G | oa --grid G | check | audit [--points] | report [--json] | trial SEED JOBS | expand | admit TOP | curve | compare --grid G\n";

/// What a call left behind: what it returned, what it told of the length, and the room.
#[derive(Drop)]
struct Left {
    returned: u8,
    needed: usize,
    room: Vec<u8>,
}

/// A room of this size, with the bytes at its front and dots behind them.
fn room_of(alloc: Global, size: usize, front: &[u8]) -> Result<Vec<u8>, AllocError> {
    let mut room = front.to_vec(alloc)?;
    room.resize(size, b'.')?;
    Ok(room)
}

/// Makes the call with the words of a text, over a room of this size.
fn call(alloc: Global, text: &str, input: &[u8], size: usize) -> Result<Left, AllocError> {
    let mut words = Vec::new(alloc);
    for word in text.split_whitespace() {
        words.push(word.as_bytes())?;
    }
    let mut room = room_of(alloc, size, b"")?;
    let mut needed = 77;
    let returned = yds_answer(alloc, &words, input, 1, 2, &mut room, &mut needed);
    Ok(Left {
        returned,
        needed,
        room,
    })
}

/// The call returned this status and told this text's length, and the front of its room has these bytes.
fn left_is(
    rt: &impl Abort,
    alloc: Global,
    left: &Left,
    status: u8,
    text: &[u8],
    front: &[u8],
) -> Result<(), Fail> {
    assert_eq!(rt; left.returned, status);
    assert_eq!(rt; left.needed, text.len());
    let want = room_of(alloc, left.room.len(), front)?;
    assert_eq!(rt; left.room.as_slice(), want.as_slice());
    Ok(())
}

#[test]
fn the_text_at_the_front_of_a_larger_room(rt: HostRuntime) -> Result<(), Fail> {
    for (words, input, status, text) in &ROWS {
        let left = call(rt.alloc(), words, input, 400)?;
        left_is(&rt, rt.alloc(), &left, *status, text, text)?;
    }
    Ok(())
}

#[test]
fn a_room_that_just_holds_the_text_and_one_that_does_not(rt: HostRuntime) -> Result<(), Fail> {
    for (words, input, status, text) in &ROWS {
        let size = text.len();
        let left = call(rt.alloc(), words, input, size)?;
        left_is(&rt, rt.alloc(), &left, *status, text, text)?;
        let left = call(rt.alloc(), words, input, size.saturating_sub(1))?;
        left_is(&rt, rt.alloc(), &left, *status, text, b"")?;
        let left = call(rt.alloc(), words, input, 0)?;
        left_is(&rt, rt.alloc(), &left, *status, text, b"")?;
    }
    Ok(())
}

#[test]
fn words_that_are_not_text(rt: HostRuntime) -> Result<(), Fail> {
    let odd = [b"\xff".as_slice(), b"plan\x80", b"\xed\xa0\x80", b"\xc3"];
    for word in odd {
        let words = [b"plan".as_slice(), word];
        let mut room = room_of(rt.alloc(), 400, b"")?;
        let mut needed = 77;
        let returned = yds_answer(rt.alloc(), &words, b"", 1, 2, &mut room, &mut needed);
        let left = Left {
            returned,
            needed,
            room,
        };
        left_is(&rt, rt.alloc(), &left, 7, b"", b"")?;
    }
    Ok(())
}

#[test]
fn words_beyond_ascii_name_no_command(rt: HostRuntime) -> Result<(), Fail> {
    let left = call(rt.alloc(), "plän", b"job a 0 4 8\n", 400)?;
    left_is(&rt, rt.alloc(), &left, 2, USAGE, USAGE)
}
