ghost use Rattle.std.specs.Prelude.{◌≡◌, ◌<◌, length, MatchOption};
ghost use Rattle.std.specs.List.{prefix_len};
ghost use Rattle.rfc4180.specs.Grammar.{text_data};
ghost use Rattle.rfc4180.specs.Reading.{held_length};

// Whether a byte may stand outside quotes.
pub(crate) fn is_text(byte: u8) -> bool
    ensures { result ≡ text_data byte }
{
    matches!(byte, 0x20..=0x21 | 0x23..=0x2b | 0x2d..=0x7e)
}

// How many plain bytes there are up to the first other one.
pub(crate) fn text_len(bytes: &[u8]) -> usize
    ensures { result ≡ prefix_len text_data bytes.now }
{
    bytes.iter().take_while(|byte| is_text(**byte)).count()
}

// Where the quote stands that closes the part between quotes that the bytes begin with, if one does.
pub(crate) fn closing_quote(bytes: &[u8]) -> Option<usize>
    ensures { MatchOption result (held_length bytes.now ≡ length bytes.now)
        (λ close. (close ≡ held_length bytes.now) × (close < length bytes.now)) }
{
    let mut at = 0;
    loop {
        match &bytes[at..] {
            [] => return None,
            [byte, ..] if *byte != b'"' => at += 1,
            // A pair of quotes is a held one: both are passed over at once.
            [_, b'"', ..] => at += 2,
            _ => return Some(at),
        }
    }
}
