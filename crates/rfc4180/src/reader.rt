ghost use Rattle.std.specs.Prelude.{◌≡◌, ⊤, IfSome, length, map, min, take};
ghost use Rattle.std.specs.Iterator.{UpTo, YieldsFirstBy, item_count};
ghost use Rattle.std.specs.Iterator.SizeHint.{IsWithinCount};
ghost use Rattle.std.proofs.Props.{props};
ghost use Rattle.rfc4180.specs.Places.{start_of, end_of};
ghost use Rattle.rfc4180.specs.Field.{piece};
ghost use Rattle.rfc4180.specs.After.{fields_at, records_after};

use crate::automaton::count;
use crate::place::Place;
use crate::{Fault, Field};
use arrayvec::ArrayVec;
use std::alloc::AllocError;

/// The records of a checked file that are still to be read, from the top. Each of them keeps its
/// first `KEPT` fields.
#[derive(Clone, Copy)]
pub struct Reader<'a, const KEPT: usize> {
    next: Option<Place<'a>>,
    records: usize,
    ghost counted: { records ≡ length (records_after next) },
}

#[tactic(auto, unfolding(crate::specs::Views::left))]
impl<'a, const KEPT: usize> Reader<'a, KEPT> {
    ghost use Rattle.rfc4180.specs.Opening.{Opening};
    ghost use Rattle.rfc4180.specs.Views.{left};

    /// A reader at the top of a file, which exists only where the bytes are one, at most 65,536 of them.
    pub fn open(file: &'a [u8]) -> Result<Self, Fault>
        ensures { Opening file.now result }
    {
        let records = count(file)?;
        Ok(Reader {
            next: Some(Place::first(file)),
            records,
        })
    }

    /// How many records are still to be read: of a file that was just opened, all. They were counted
    /// as the file was checked, so no field is cut for it.
    pub fn records(&self) -> usize
        ensures { result ≡ length (left self.now) }
    {
        self.records
    }
}

#[tactic(auto, unfolding(crate::specs::Views::left, crate::specs::Views::pieces))]
impl<'a, const KEPT: usize> Iterator for Reader<'a, KEPT> {
    ghost use Rattle.rfc4180.specs.Views.{pieces, left};

    type Item = Record<'a, KEPT>;

    ghost next_gives = { YieldsFirstBy pieces left };

    ghost remaining = { item_count left };

    fn next(&mut self) -> Option<Record<'a, KEPT>> {
        let first = self.next?;
        let record = Record::read(first);
        *self = Reader {
            next: first.next_record(record.end),
            records: self.records - 1,
        };
        Some(record)
    }

    fn size_hint(&self) -> (usize, Option<usize>)
        ensures lower { IsWithinCount result.0 (item_count left self.now) }
        ensures upper { IfSome result.1 (UpTo (item_count left self.now)) }
        ensures least { result.0 ≡ length (left self.now) }
        ensures most { result.1 ≡ Some (length (left self.now)) }
    {
        (self.records, Some(self.records))
    }
}

/// A record of a checked file. It keeps its first `KEPT` fields, or all where it has fewer.
#[derive(Drop)]
pub struct Record<'a, const KEPT: usize> {
    first: Place<'a>,
    kept: ArrayVec<Field<'a>, KEPT>,
    count: usize,
    end: usize,
    ghost keeps: { map piece kept.items ≡ take KEPT (fields_at first) } by { Prim.hlevel props },
    ghost counted: { count ≡ length (fields_at first) },
    ghost ends: { end ≡ end_of (fields_at first) },
}

#[tactic(auto, unfolding(crate::specs::Views::pieces))]
impl<'a, const KEPT: usize> Record<'a, KEPT> {
    ghost use Rattle.rfc4180.specs.Views.{pieces};

    // The record whose first field starts at a place.
    #[tactic(auto, using(crate::proofs::Keeping::cutting))]
    fn read(first: Place<'a>) -> Self
        ensures { result.first ≡ first.entry }
    {
        let mut kept = ArrayVec::new();
        let mut count = 0;
        let mut end = first.at();
        let mut next = Some(first);
        while let Some(place) = next {
            let field = place.field();
            end = field.end();
            next = place.next_field(end);
            count += 1;
            if !kept.is_full() {
                kept.push(field);
            }
        }
        Record {
            first,
            kept,
            count,
            end,
        }
    }

    /// How many fields it has, kept or not.
    pub fn count(&self) -> usize
        ensures { result ≡ length (pieces self.now) }
    {
        self.count
    }

    /// The fields that it keeps, from the left: the first `KEPT`, or all where there are fewer.
    #[tactic(auto, using(crate::proofs::Kept::kept_len), unfolding(crate::specs::Views::pieces))]
    pub fn fields(&self) -> &[Field<'a>]
        ensures pieces { map piece result.now ≡ take KEPT (pieces self.now) }
        ensures len { length result.now ≡ min KEPT (length (pieces self.now)) }
    {
        &self.kept
    }

    /// Where its first field starts.
    #[tactic(auto, using(crate::proofs::Rows::row_start), unfolding(crate::specs::Views::pieces))]
    pub fn start(&self) -> usize
        ensures { result ≡ start_of (pieces self.now) }
    {
        self.first.at()
    }

    /// Where its last field ends, kept or not.
    pub fn end(&self) -> usize
        ensures { result ≡ end_of (pieces self.now) }
    {
        self.end
    }
}

/// A clone has the fields of the record, each at its place; it never fails.
#[tactic(auto, unfolding(crate::specs::Views::pieces))]
impl<'a, const KEPT: usize> Clone for Record<'a, KEPT> {
    ghost use Rattle.rfc4180.specs.Views.{pieces};

    ghost is_clone = { λ r s. pieces s ≡ pieces r };

    ghost is_infallible = { λ _. ⊤ };

    fn clone(&self) -> Result<Self, AllocError> {
        let Record {
            first,
            kept,
            count: fields,
            end: last,
        } = self;
        Ok(Record {
            first: *first,
            kept: kept.clone()?,
            count: *fields,
            end: *last,
        })
    }
}
