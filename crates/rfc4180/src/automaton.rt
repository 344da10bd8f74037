ghost use Rattle.std.specs.Prelude.{◌≡◌, IfOk, length};
ghost use Rattle.rfc4180.specs.Automaton.{after_of, final, opened, scan_of, step_of};
ghost use Rattle.rfc4180.specs.Check.{Parsed, Verdict};
ghost use Rattle.rfc4180.specs.Reading.{records_at};
ghost use Rattle.rfc4180.specs.declared.automaton.State.TheVariants.{Start};

use crate::Fault;
use crate::scan::is_text;

/// The most bytes that a file has.
pub const MOST_BYTES: usize = 65_536;

// Where in a file a byte stands.
#[derive(Clone, Copy, PartialEq, Eq, Debug)]
enum State {
    // where a field starts
    Start,
    // after a byte of a plain field
    Plain,
    // between quotes
    Inside,
    // after a quote that closes a field, or that is the first of two
    Closed,
    // after a CR that ends a record
    Return,
}

impl State {
    // The state after a byte that ends a field.
    fn after(byte: u8) -> Option<State>
        ensures { result ≡ after_of byte }
    {
        match byte {
            b',' => Some(Self::Start),
            b'\r' => Some(Self::Return),
            _ => None,
        }
    }

    // The state after a byte, if a file may have it there.
    fn step(self, byte: u8) -> Option<State>
        ensures { result ≡ step_of self byte }
    {
        match (self, byte) {
            (Self::Start, b'"') => Some(Self::Inside),
            (Self::Start | Self::Plain, _) if is_text(byte) => Some(Self::Plain),
            (Self::Start | Self::Plain, _) => Self::after(byte),
            (Self::Inside, b'"') => Some(Self::Closed),
            (Self::Inside, b'\r' | b'\n' | 0x20..=0x7e) => Some(Self::Inside),
            (Self::Inside, _) => None,
            (Self::Closed, b'"') => Some(Self::Inside),
            (Self::Closed, _) => Self::after(byte),
            (Self::Return, b'\n') => Some(Self::Start),
            (Self::Return, _) => None,
        }
    }

    // How many records open after a byte there, by the bytes behind it: one after the LF of a line
    // end, unless it closes the file.
    fn opened(self, rest: &[u8]) -> usize
        ensures { result ≡ opened self rest.now }
    {
        match (self, rest) {
            (Self::Return, [_, ..]) => 1,
            _ => 0,
        }
    }

    // Whether a file may end there.
    fn may_end(self) -> bool
        ensures { result ≡ final self }
    {
        matches!(self, Self::Start | Self::Plain | Self::Closed)
    }
}

// How many records a file of whatever size has, where the bytes are one.
fn scan(file: &[u8]) -> Result<usize, Fault>
    ensures { result ≡ scan_of Start 0 1 file.now }
{
    let mut state = State::Start;
    let mut records = 1;
    for (at, byte) in file.iter().enumerate() {
        records += state.opened(&file[at + 1..]);
        state = state.step(*byte).ok_or(Fault::Syntax { at })?;
    }
    if !state.may_end() {
        return Err(Fault::Syntax { at: file.len() });
    }
    Ok(records)
}

// How many records a file has, where the bytes are one, or else why they are none.
pub(crate) fn count(file: &[u8]) -> Result<usize, Fault>
    ensures verdict { Verdict file.now result }
    ensures parsed { Parsed file.now result }
    ensures records { IfOk result (λ n. n ≡ length (records_at file.now 0)) }
{
    if file.len() > MOST_BYTES {
        return Err(Fault::TooLong);
    }
    scan(file)
}

/// Whether the bytes are a file, of at most 65,536; else why they are none, and at which place.
pub fn check(file: &[u8]) -> Result<(), Fault>
    ensures verdict { Verdict file.now result }
    ensures parsed { Parsed file.now result }
{
    count(file).map(drop)
}
