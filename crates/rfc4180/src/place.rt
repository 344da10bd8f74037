ghost use Rattle.std.specs.Prelude.{◌≡◌, ◌≤◌, ◌∷◌, drop, length};
ghost use Rattle.std.specs.Option.{option_map};
ghost use Rattle.rfc4180.specs.Places.{end_of};
ghost use Rattle.rfc4180.specs.Reading.{quoted_part, plain_at, field_end, piece_at};

use crate::Field;
use crate::scan::{closing_quote, text_len};

// A place in a checked file, at most its end.
#[derive(Clone, Copy)]
pub(crate) struct Place<'a> {
    file: &'a [u8],
    at: usize,
    ghost within: { at ≤ length file.now },
    ghost short: { length file.now ≤ 65536 },
}

impl<'a> Place<'a> {
    ghost use Rattle.rfc4180.specs.Field.{piece};
    ghost use Rattle.rfc4180.specs.After.{fields_at, fields_after, records_after};

    // Where a file begins.
    pub(crate) fn first(file: &'a [u8]) -> Place<'a>
        requires { length file.now ≤ 65536 }
        ensures file { result.file.now ≡ file.now }
        ensures at { result.at ≡ 0 }
    {
        Place { file, at: 0 }
    }

    pub(crate) fn at(self) -> usize
        ensures { result ≡ self.entry.at }
    {
        self.at
    }

    // The bytes from there on.
    fn rest(self) -> &'a [u8]
        ensures { result.now ≡ drop self.entry.at self.entry.file.now }
    {
        &self.file[self.at..]
    }

    // The bytes between the quotes of the field that starts there, if it is a quoted one.
    fn quoted(self) -> Option<&'a [u8]>
        ensures { option_map (λ x. x.now) result ≡ quoted_part self.entry.file.now self.entry.at }
    {
        let held = self.rest().strip_prefix(b"\"")?;
        let close = closing_quote(held)?;
        Some(&held[..close])
    }

    // The plain bytes from there on.
    fn plain(self) -> &'a [u8]
        ensures { result.now ≡ plain_at self.entry.file.now self.entry.at }
    {
        let rest = self.rest();
        &rest[..text_len(rest)]
    }

    // The field that starts there.
    pub(crate) fn field(self) -> Field<'a>
        ensures value { piece result ≡ piece_at self.entry.file.now self.entry.at }
        ensures end { (piece result).end ≤ length self.entry.file.now }
    {
        let at = self.at;
        if let Some(bytes) = self.quoted() {
            return Field::Quoted { bytes, at };
        }
        match self.plain() {
            [] => Field::Blank { at },
            bytes => Field::Plain { bytes, at },
        }
    }

    // Where the next field of the record starts, if a comma follows this one, which ends at `end`.
    #[tactic(auto, using(crate::proofs::Rows::row_more))]
    pub(crate) fn next_field(self, end: usize) -> Option<Place<'a>>
        requires { end ≡ field_end self.file.now self.at }
        ensures { fields_at self.entry
            ≡ piece_at self.entry.file.now self.entry.at ∷ fields_after result }
    {
        if self.file.get(end) == Some(&b',') {
            Some(Place {
                file: self.file,
                at: end + 1,
            })
        } else {
            None
        }
    }

    // Where the next record starts, if the file goes on after the CR LF that follows this one, which
    // ends at `end`.
    #[tactic(auto, using(crate::proofs::Rows::rows_more, crate::proofs::Rows::row_end_within))]
    pub(crate) fn next_record(self, end: usize) -> Option<Place<'a>>
        requires { end ≡ end_of (fields_at self) }
        ensures { records_after (Some self.entry) ≡ fields_at self.entry ∷ records_after result }
    {
        let at = end + 2;
        if at < self.file.len() {
            Some(Place {
                file: self.file,
                at,
            })
        } else {
            None
        }
    }
}
