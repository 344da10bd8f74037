use rfc4180::{Fault, Field, Reader, Record};
use std::process::Abort;
use std::test::Fail;

// How many fields the records of these cases keep: more than most of them have.
const KEPT: usize = 4;

// The next record of a file.
fn next<'a>(reader: &mut Reader<'a, KEPT>) -> Result<Record<'a, KEPT>, Fail> {
    Ok(reader.next().ok_or("no record")?)
}

// A plain field at this place.
fn plain(bytes: &[u8], at: usize) -> Field<'_> {
    Field::Plain { bytes, at }
}

// A quoted field, written so between its quotes, at this place.
fn quoted(bytes: &[u8], at: usize) -> Field<'_> {
    Field::Quoted { bytes, at }
}

// Whether a record has these fields and no more.
fn has(rt: &impl Abort, record: &Record<'_, KEPT>, fields: &[Field<'_>]) {
    assert_eq!(rt; record.count(), fields.len());
    assert!(rt; record.fields() == fields);
}

// Whether the next record has three plain fields of three bytes each. Its place is a u8, since the type keeps the sums in range.
fn three(
    rt: &impl Abort,
    reader: &mut Reader<'_, KEPT>,
    texts: [&[u8]; 3],
    place: u8,
) -> Result<(), Fail> {
    let start = usize::from(place);
    let fields = [
        plain(texts[0], start),
        plain(texts[1], start + 4),
        plain(texts[2], start + 8),
    ];
    has(rt, &next(reader)?, &fields);
    Ok(())
}

const ONE: [&[u8]; 3] = [b"aaa", b"bbb", b"ccc"];

const TWO: [&[u8]; 3] = [b"zzz", b"yyy", b"xxx"];

#[test]
fn each_record_on_a_line_of_its_own(rt: HostRuntime) -> Result<(), Fail> {
    let mut reader = Reader::open(b"aaa,bbb,ccc\r\nzzz,yyy,xxx\r\n")?;
    assert_eq!(rt; reader.records(), 2);
    three(&rt, &mut reader, ONE, 0)?;
    assert_eq!(rt; reader.records(), 1);
    three(&rt, &mut reader, TWO, 13)?;
    assert_eq!(rt; reader.records(), 0);
    assert!(rt; reader.next().is_none());
    Ok(())
}

#[test]
fn the_last_line_end_may_be_absent(rt: HostRuntime) -> Result<(), Fail> {
    let mut reader = Reader::open(b"aaa,bbb,ccc\r\nzzz,yyy,xxx")?;
    three(&rt, &mut reader, ONE, 0)?;
    three(&rt, &mut reader, TWO, 13)?;
    assert!(rt; reader.next().is_none());
    Ok(())
}

#[test]
fn a_header_may_come_first(rt: HostRuntime) -> Result<(), Fail> {
    let mut reader = Reader::open(
        b"field_name,field_name,field_name\r\naaa,bbb,ccc\r\nzzz,yyy,xxx\r\n",
    )?;
    let header = next(&mut reader)?;
    assert_eq!(rt; header.count(), 3);
    assert_eq!(rt; header.end(), 32);
    has(
        &rt,
        &header,
        &[
            plain(b"field_name", 0),
            plain(b"field_name", 11),
            plain(b"field_name", 22),
        ],
    );
    three(&rt, &mut reader, ONE, 34)?;
    three(&rt, &mut reader, TWO, 47)?;
    assert!(rt; reader.next().is_none());
    Ok(())
}

#[test]
fn commas_separate_fields(rt: HostRuntime) -> Result<(), Fail> {
    let mut reader = Reader::open(b"aaa,bbb,ccc")?;
    three(&rt, &mut reader, ONE, 0)?;
    assert!(rt; reader.next().is_none());
    Ok(())
}

#[test]
fn fields_may_be_quoted(rt: HostRuntime) -> Result<(), Fail> {
    let mut reader = Reader::open(b"\"aaa\",\"bbb\",\"ccc\"\r\nzzz,yyy,xxx")?;
    let first = next(&mut reader)?;
    has(
        &rt,
        &first,
        &[quoted(b"aaa", 0), quoted(b"bbb", 6), quoted(b"ccc", 12)],
    );
    three(&rt, &mut reader, TWO, 19)?;
    assert!(rt; reader.next().is_none());
    Ok(())
}

#[test]
fn quotes_hold_line_ends(rt: HostRuntime) -> Result<(), Fail> {
    let mut reader = Reader::open(b"\"aaa\",\"b\r\nbb\",\"ccc\"\r\nzzz,yyy,xxx")?;
    let first = next(&mut reader)?;
    has(
        &rt,
        &first,
        &[quoted(b"aaa", 0), quoted(b"b\r\nbb", 6), quoted(b"ccc", 14)],
    );
    three(&rt, &mut reader, TWO, 21)?;
    assert!(rt; reader.next().is_none());
    Ok(())
}

#[test]
fn a_held_quote_stands_twice(rt: HostRuntime) -> Result<(), Fail> {
    let mut reader = Reader::open(b"\"aaa\",\"b\"\"bb\",\"ccc\"")?;
    let first = next(&mut reader)?;
    has(
        &rt,
        &first,
        &[quoted(b"aaa", 0), quoted(b"b\"\"bb", 6), quoted(b"ccc", 14)],
    );
    assert!(rt; reader.next().is_none());
    Ok(())
}

#[test]
fn an_empty_file_is_one_blank(rt: HostRuntime) -> Result<(), Fail> {
    let mut reader = Reader::open(b"")?;
    let first = next(&mut reader)?;
    assert_eq!(rt; first.count(), 1);
    has(&rt, &first, &[Field::Blank { at: 0 }]);
    assert!(rt; reader.next().is_none());
    Ok(())
}

#[test]
fn blanks_and_empty_quotes(rt: HostRuntime) -> Result<(), Fail> {
    let mut reader = Reader::open(b",\"\"\r\n\r\n")?;
    let first = next(&mut reader)?;
    has(&rt, &first, &[Field::Blank { at: 0 }, quoted(b"", 1)]);
    let second = next(&mut reader)?;
    assert_eq!(rt; second.start(), 5);
    has(&rt, &second, &[Field::Blank { at: 5 }]);
    assert!(rt; reader.next().is_none());
    Ok(())
}

#[test]
fn a_record_keeps_its_first_fields(rt: HostRuntime) -> Result<(), Fail> {
    let mut reader = Reader::open(b"a,b,c,d,e,f\r\ng")?;
    let first = next(&mut reader)?;
    assert_eq!(rt; first.count(), 6);
    assert_eq!(rt; first.end(), 11);
    assert!(rt;
        first.fields()
            == [
                plain(b"a", 0),
                plain(b"b", 2),
                plain(b"c", 4),
                plain(b"d", 6)
            ]
            .as_slice()
    );
    let second = next(&mut reader)?;
    has(&rt, &second, &[plain(b"g", 13)]);
    assert!(rt; reader.next().is_none());
    Ok(())
}

#[test]
fn a_clone_has_the_fields_of_its_record(rt: HostRuntime) -> Result<(), Fail> {
    let mut reader = Reader::open(b"a,\"b\",,d,e\r\nf")?;
    let first = next(&mut reader)?;
    let clone = first.clone()?;
    assert_eq!(rt; clone.count(), 5);
    assert_eq!(rt; clone.start(), 0);
    assert_eq!(rt; clone.end(), 10);
    assert!(rt;
        clone.fields()
            == [
                plain(b"a", 0),
                quoted(b"b", 2),
                Field::Blank { at: 6 },
                plain(b"d", 7)
            ]
            .as_slice()
    );
    has(&rt, &next(&mut reader)?, &[plain(b"f", 12)]);
    Ok(())
}

#[test]
fn bytes_that_no_file_has_there(rt: HostRuntime) {
    assert_eq!(rt; rfc4180::check(b"a\nb"), Err(Fault::Syntax { at: 1 }));
    assert_eq!(rt; rfc4180::check(b"a\rb"), Err(Fault::Syntax { at: 2 }));
    assert_eq!(rt; rfc4180::check(b"a\r"), Err(Fault::Syntax { at: 2 }));
    assert_eq!(rt; rfc4180::check(b"ab\x7f"), Err(Fault::Syntax { at: 2 }));
    assert_eq!(rt; rfc4180::check(b"a\"b"), Err(Fault::Syntax { at: 1 }));
    assert_eq!(rt; rfc4180::check(b"\"ab"), Err(Fault::Syntax { at: 3 }));
    assert_eq!(rt; rfc4180::check(b"\"ab\"c"), Err(Fault::Syntax { at: 4 }));
    assert_eq!(rt; rfc4180::check(b"\"\x7f"), Err(Fault::Syntax { at: 1 }));
    assert_eq!(rt; rfc4180::check(b"\x7e !#+-"), Ok(()));
}

#[test]
fn a_file_has_at_most_65536_bytes(rt: HostRuntime) -> Result<(), Fail> {
    let most = vec![in rt.alloc(); b'a'; 65_536]?;
    assert_eq!(rt; rfc4180::check(most.as_slice()), Ok(()));
    let more = vec![in rt.alloc(); b'\n'; 65_537]?;
    assert_eq!(rt; rfc4180::check(more.as_slice()), Err(Fault::TooLong));
    Ok(())
}
