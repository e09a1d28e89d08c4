//! The states in which a thread leaves its processor.
ghost use Rattle.std.specs.Prelude.{◌≡◌};
ghost use Rattle.std.specs.List.{list_all};
ghost use Rattle.yds_kernel.specs.Form.{state_of, is_state, is_over, goes_on, is_state_letter, is_state_byte, is_state_number};

/// In which state a thread leaves its processor.
#[derive(Clone, Copy, Debug, PartialEq, Eq)]
pub enum State {
    /// Its job goes on: it was preempted, waits for a disk, or is stopped or traced.
    GoesOn,
    /// It sleeps.
    Sleeps,
    /// It is over.
    Exits,
    /// A state that the kernel doesn't have.
    Unknown,
}

impl State {
    /// The state that is spelled so: a letter, perhaps with more letters, `|` and `+` behind it, or a number.
    pub(crate) fn of(text: &[u8]) -> State
        ensures { result ≡ state_of text.now }
    {
        match text {
            [b'S'] => State::Sleeps,
            [b'R'] => State::GoesOn,
            [] | [_, ..] => State::of_any(text),
        }
    }

    /// The same, by all that such a state may be.
    fn of_any(text: &[u8]) -> State
        ensures { result ≡ state_of text.now }
    {
        if !is_state(text) {
            State::Unknown
        } else if is_over(text) {
            State::Exits
        } else if goes_on(text) {
            State::GoesOn
        } else {
            State::Sleeps
        }
    }
}

/// Whether the kernel or a tool writes such a state.
fn is_state(text: &[u8]) -> bool
    ensures { result ≡ is_state text.now }
{
    match text {
        [] => false,
        [first, more @ ..] => {
            is_state_letter(*first) && has_state_bytes(more) || is_state_number(text)
        }
    }
}

fn has_state_bytes(text: &[u8]) -> bool
    ensures { result ≡ list_all is_state_byte text.now }
{
    text.iter().all(|byte| is_state_byte(*byte))
}

fn is_state_letter(byte: u8) -> bool
    ensures { result ≡ is_state_letter byte }
{
    byte == b'R'
        || byte == b'D'
        || byte == b'S'
        || byte == b'T'
        || byte == b't'
        || byte == b'X'
        || byte == b'x'
        || byte == b'Z'
        || byte == b'P'
        || byte == b'I'
        || byte == b'W'
        || byte == b'K'
        || byte == b'N'
}

fn is_state_byte(byte: u8) -> bool
    ensures { result ≡ is_state_byte byte }
{
    byte.is_ascii_alphabetic() || byte == b'|' || byte == b'+'
}

/// Whether it is one of the numbers that a raw trace has for the states.
fn is_state_number(text: &[u8]) -> bool
    ensures { result ≡ is_state_number text.now }
{
    text == b"0".as_slice()
        || text == b"1".as_slice()
        || text == b"2".as_slice()
        || text == b"4".as_slice()
        || text == b"8".as_slice()
        || text == b"16".as_slice()
        || text == b"32".as_slice()
        || text == b"64".as_slice()
        || text == b"128".as_slice()
        || text == b"256".as_slice()
}

/// Whether a thread that leaves in this state is over.
fn is_over(text: &[u8]) -> bool
    ensures { result ≡ is_over text.now }
{
    match text {
        [] => false,
        [first, ..] => {
            *first == b'X'
                || *first == b'Z'
                || *first == b'x'
                || text == b"16".as_slice()
                || text == b"32".as_slice()
        }
    }
}

/// Whether a thread that leaves in this state goes on with its job.
fn goes_on(text: &[u8]) -> bool
    ensures { result ≡ goes_on text.now }
{
    match text {
        [] => false,
        [first, ..] => {
            *first == b'R'
                || *first == b'D'
                || *first == b'T'
                || *first == b't'
                || text[text.len() - 1] == b'+'
                || text == b"0".as_slice()
                || text == b"2".as_slice()
                || text == b"4".as_slice()
                || text == b"8".as_slice()
                || text == b"256".as_slice()
        }
    }
}
