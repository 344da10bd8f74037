ghost use Rattle.std.specs.Prelude.{◌≡◌, ◌^◌, ◌<◌, not};
ghost use Rattle.std.specs.Option.{option_map};
ghost use Rattle.rfc4180.specs.Field.{piece, quoteless, text_of};
ghost use Rattle.rfc4180.specs.declared.field.Field.TheVariants.{Blank};

/// A field of a file. It borrows the file's bytes, and has the place of its first byte, from 0 on.
#[derive(Clone, Copy, PartialEq, Eq, Debug)]
pub enum Field<'a> {
    /// Bytes with no quotes around them, at least one.
    Plain { bytes: &'a [u8], at: usize },
    /// What stands between quotes, as written: a quote that is held stands twice. The place is the
    /// opening quote's.
    Quoted { bytes: &'a [u8], at: usize },
    /// No byte at all.
    Blank { at: usize },
}

impl<'a> Field<'a> {
    /// The place of its first byte, which of a quoted field is the opening quote.
    pub fn start(self) -> usize
        ensures { result ≡ (piece self.entry).start }
    {
        match self {
            Field::Plain { at, .. } | Field::Quoted { at, .. } | Field::Blank { at } => at,
        }
    }

    // The place after its last byte.
    pub(crate) fn end(self) -> usize
        requires { (piece self).end < 2 ^ 64 }
        ensures { result ≡ (piece self.entry).end }
    {
        match self {
            Field::Plain { bytes, at } => at + bytes.len(),
            Field::Quoted { bytes, at } => at + 1 + bytes.len() + 1,
            Field::Blank { at } => at,
        }
    }

    /// What it holds; none for a blank, and none where it holds a quote, which the file has twice.
    #[tactic(auto, using(crate::proofs::Quotes::text_quoted))]
    pub fn text(self) -> Option<&'a [u8]>
        ensures { option_map (λ x. x.now) result ≡ text_of (piece self.entry).content }
    {
        match self {
            Field::Plain { bytes, .. } => Some(bytes),
            Field::Quoted { bytes, .. } => (!holds_quote(bytes)).then_some(bytes),
            Field::Blank { .. } => None,
        }
    }
}

// Whether a quote stands among the bytes.
fn holds_quote(bytes: &[u8]) -> bool
    ensures { result ≡ not (quoteless bytes.now) }
{
    bytes.contains(&b'"')
}

/// A blank at the start of a file.
impl Default for Field<'_> {
    ghost is_default = { λ field. field ≡ Blank 0 };

    fn default() -> Self {
        Field::Blank { at: 0 }
    }
}
