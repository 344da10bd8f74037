// The text of a refusal.
ghost use Rattle.std.specs.Prelude.{◌≡◌};
ghost use Rattle.printing.specs.Texts.{Writing};
ghost use Rattle.printing.specs.RefusalTexts.{refusal_text, RefusalsAreShort, RefusalsAreTold};

use crate::texts::{COMMA, NEW_LINE, Text};
use files::FileFault;
use refusals::Refusal;

// The header above every refusal.
const HEADER: &[u8] = b"layer,refusal,place";

// Enough for the text of any refusal: 21 bytes of header, a name of at most 8, a number of at most
// 3, a place of at most 20, two commas and a line end.
type RefusalText = Text<56>;

// The text of a refusal.
fn refusal_text(refusal: Refusal) -> RefusalText
    ensures { result.bytes.items ≡ refusal_text refusal }
{
    let mut text = Text::new();
    text.push(HEADER);
    text.push(NEW_LINE);
    text.push(refusal.layer.name().as_bytes());
    text.push(COMMA);
    text.push_number(refusal.number);
    text.push(COMMA);
    text.push_number(refusal.place);
    text.push(NEW_LINE);
    text
}

/// Writes the text of a refusal to the front of a buffer and gives its length in bytes, which is at
/// most 56; the bytes behind stay.
///
/// Below a header stands one record: the layer's name, the number and the place. CR LF ends every
/// line.
///
/// A buffer that is too short is refused with the length that the text needs, and stays as it was.
pub fn write_refusal(refusal: Refusal, out: &mut [u8]) -> Result<usize, FileFault>
    ensures writes { Writing (refusal_text refusal) out.old out.new result }
    ensures short { RefusalsAreShort }
    ensures told { RefusalsAreTold }
{
    refusal_text(refusal).write_to(out)
}
