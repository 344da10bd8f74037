// Texts of a fixed room, put together part by part and written into a buffer.
ghost use Rattle.std.specs.Prelude.{◌≡◌, ◌+◌, ◌≤◌, [], ◌++◌, length};
ghost use Rattle.arrayvec.specs.ArrayVec.{array_vec_len};
ghost use Rattle.printing.specs.Texts.{Writing};

use arrayvec::ArrayVec;
use files::FileFault;
use itoa::{Buffer, Integer};

// The end of every line.
pub(crate) const NEW_LINE: &[u8] = b"\r\n";

pub(crate) const COMMA: &[u8] = b",";

// A text of at most `N` bytes.
#[derive(Drop)]
pub(crate) struct Text<const N: usize> {
    bytes: ArrayVec<u8, N>,
}

impl<const N: usize> Text<N> {
    // The empty text.
    pub(crate) fn new() -> Text<N>
        ensures bytes { result.bytes.items ≡ [] }
        ensures len { array_vec_len result.bytes ≡ 0 }
    {
        Text {
            bytes: ArrayVec::new(),
        }
    }

    // Appends a part.
    pub(crate) fn push(&mut self, part: &[u8])
        requires { array_vec_len self.old.bytes + length part.now ≤ N }
        ensures bytes { self.new.bytes.items ≡ self.old.bytes.items ++ part.now }
        ensures len { array_vec_len self.new.bytes
            ≡ array_vec_len self.old.bytes + length part.now }
    {
        self.bytes.try_extend_from_slice(part).unwrap();
    }

    // Appends a number in base ten without leading zeros.
    pub(crate) fn push_number<I: Integer>(&mut self, n: I)
        requires { array_vec_len self.old.bytes + length (I.text n) ≤ N }
        ensures bytes { self.new.bytes.items ≡ self.old.bytes.items ++ I.text n }
        ensures len { array_vec_len self.new.bytes
            ≡ array_vec_len self.old.bytes + length (I.text n) }
    {
        self.push(Buffer::new().format(n).as_bytes());
    }

    // Puts the text at the front of a buffer and gives its length; a buffer that is too short stays
    // as it was.
    pub(crate) fn write_to(&self, out: &mut [u8]) -> Result<usize, FileFault>
        ensures { Writing self.now.bytes.items out.old out.new result }
    {
        let needed = self.bytes.len();
        if out.len() < needed {
            return Err(FileFault::ShortBuffer { needed });
        }
        out[..needed].copy_from_slice(self.bytes.as_slice());
        Ok(needed)
    }
}
