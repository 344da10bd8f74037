// The header has 12 bytes and its line end 2, so the first record starts at 14.
// In a record of a bus and a parent of one digit each, the parent is 2 behind its start and the resistance 4.
use crate::line::line;
use arrayvec::ArrayString;
use feeder::{Fault, Line, Map};
use files::FileFault;
use maps::read_map;
use printing::write_map;
use refusals::{Layer, Refusal};
use std::array;
use std::fmt::Write;
use std::process::Abort;
use std::test::Fail;

// A map of one bus, not metered.
fn single(resistance: u32) -> Result<Map, Fault> {
    Map::from_lines(0, &[line(0, resistance)])
}

// Whether a call is refused with this number at this place.
fn told<T: Drop>(
    rt: &impl Abort,
    answer: Result<T, FileFault>,
    number: u8,
    place: usize,
) -> Result<(), Fail> {
    let fault = answer.err().ok_or("accepted")?;
    assert_eq!(rt;
        Refusal::from(fault),
        Refusal {
            number,
            layer: Layer::File,
            place
        }
    );
    Ok(())
}

// Whether reading refuses with this number at this place, and leaves the place as it was.
fn refused(rt: &impl Abort, file: &[u8], number: u8, place: usize) -> Result<(), Fail> {
    let mut map = single(7)?;
    told(rt, read_map(file, &mut map), number, place)?;
    untouched(rt, &map);
    Ok(())
}

// Whether a map is still that of one bus with resistance 7.
fn untouched(rt: &impl Abort, map: &Map) {
    assert_eq!(rt; map.buses(), 1);
    assert_eq!(rt; map.metered(), 0);
    assert_eq!(rt; map.resistance(1), Some(7));
}

fn read(file: &[u8]) -> Result<Map, Fail> {
    let mut map = single(7)?;
    read_map(file, &mut map)?;
    Ok(map)
}

// Whether a map has these lines, and every bus is metered.
fn has(rt: &impl Abort, map: &Map, lines: &[Line]) {
    assert_eq!(rt; map.buses(), lines.len());
    assert_eq!(rt; map.metered(), lines.len());
    assert_eq!(rt; map.lines(), lines);
    for (i, line) in lines.iter().enumerate() {
        assert!(rt; i < 64);
        assert_eq!(rt; map.parent(i + 1), Some(line.parent));
        assert_eq!(rt; map.resistance(i + 1), Some(line.resistance));
    }
}

fn reads(rt: &impl Abort, file: &[u8], lines: &[Line]) -> Result<(), Fail> {
    has(rt, &read(file)?, lines);
    Ok(())
}

fn untouched_bytes(rt: &impl Abort, bytes: &[u8]) {
    assert!(rt; bytes.iter().all(|byte| *byte == b'x'));
}

// Whether a map is written as this text, and the bytes behind it stay.
fn writes(rt: &impl Abort, map: &Map, text: &[u8]) -> Result<(), Fail> {
    let mut out = [b'x'; 100];
    let n = write_map(map, &mut out)?;
    let (front, rest) = out.split_at_checked(n).ok_or("longer than the buffer")?;
    assert_eq!(rt; front, text);
    untouched_bytes(rt, rest);
    Ok(())
}

// 14 bytes of header, and 14 for each of three records: 56.
const THREE: &[u8] = b"bus,parent,r\r\n1,0,0.000300\r\n2,1,0.000200\r\n3,1,0.000500\r\n";

#[test]
fn three_buses_there_and_back(rt: HostRuntime) -> Result<(), Fail> {
    assert_eq!(rt; THREE.len(), 56);
    let map = read(THREE)?;
    has(&rt, &map, &[line(0, 300), line(1, 200), line(1, 500)]);
    writes(&rt, &map, THREE)
}

#[test]
fn texts_of_one_bus(rt: HostRuntime) -> Result<(), Fail> {
    writes(&rt, &single(7)?, b"bus,parent,r\r\n1,0,0.000007\r\n")?;
    writes(
        &rt,
        &single(1_000_000)?,
        b"bus,parent,r\r\n1,0,1.000000\r\n",
    )?;
    writes(&rt, &single(123_456)?, b"bus,parent,r\r\n1,0,0.123456\r\n")?;
    writes(&rt, &Map::new(), b"bus,parent,r\r\n")
}

#[test]
fn a_buffer_that_is_too_short(rt: HostRuntime) -> Result<(), Fail> {
    let mut out = [b'x'; 27];
    told(&rt, write_map(&single(300)?, &mut out), 22, 28)?;
    untouched_bytes(&rt, &out);
    Ok(())
}

#[test]
fn a_buffer_that_just_fits(rt: HostRuntime) -> Result<(), Fail> {
    let mut out = [b'x'; 28];
    assert_eq!(rt; write_map(&single(300)?, &mut out)?, 28);
    assert_eq!(rt;
        out.as_slice(),
        b"bus,parent,r\r\n1,0,0.000300\r\n".as_slice()
    );
    Ok(())
}

#[test]
fn other_ways_to_write_a_record(rt: HostRuntime) -> Result<(), Fail> {
    reads(&rt, b"bus,parent,r\r\n1,0,0.0003", &[line(0, 300)])?;
    reads(&rt, b"bus,parent,r\r\n01,00,0.000300\r\n", &[line(0, 300)])?;
    reads(
        &rt,
        b"\"bus\",\"parent\",\"r\"\r\n\"1\",\"0\",\"0.5\"",
        &[line(0, 500_000)],
    )?;
    reads(
        &rt,
        b"bus,parent,r\r\n1,2,0.1\r\n2,0,0.2",
        &[line(2, 100_000), line(0, 200_000)],
    )
}

#[test]
fn headers(rt: HostRuntime) -> Result<(), Fail> {
    refused(&rt, b"", 3, 0)?;
    refused(&rt, b"\r\n", 3, 0)?;
    refused(&rt, b"\"\"", 3, 0)?;
    refused(&rt, b"Bus,parent,r\r\n1,0,0.1", 3, 0)?;
    refused(&rt, b"bus,up,r\r\n1,0,0.1", 3, 4)?;
    refused(&rt, b"bus,parent,x\r\n1,0,0.1", 3, 11)?;
    refused(&rt, b"bus,parent\r\n1,0", 3, 10)?;
    refused(&rt, b"bus,parent,r,x\r\n1,0,0.1,1", 3, 13)?;
    refused(&rt, b"bus,parent,r\n1,0,0.1", 1, 12)
}

#[test]
fn no_record(rt: HostRuntime) -> Result<(), Fail> {
    refused(&rt, b"bus,parent,r", 19, 12)?;
    refused(&rt, b"bus,parent,r\r\n", 19, 14)
}

// A first record of 7 bytes and its line end: the second starts at 23.
#[test]
fn field_counts(rt: HostRuntime) -> Result<(), Fail> {
    refused(&rt, b"bus,parent,r\r\n1,0", 4, 14)?;
    refused(&rt, b"bus,parent,r\r\n1,0,0.1,0", 4, 14)?;
    refused(&rt, b"bus,parent,r\r\n1,0,0.1\r\n2,1", 4, 23)?;
    refused(&rt, b"bus,parent,r\r\n1,0,0.1\r\n\r\n", 4, 23)
}

#[test]
fn buses(rt: HostRuntime) -> Result<(), Fail> {
    refused(&rt, b"bus,parent,r\r\n2,0,0.1", 19, 14)?;
    refused(&rt, b"bus,parent,r\r\n0,0,0.1", 19, 14)?;
    refused(&rt, b"bus,parent,r\r\n1,0,0.1\r\n1,0,0.1", 19, 23)?;
    refused(&rt, b"bus,parent,r\r\n1,0,0.1\r\n3,0,0.1", 19, 23)?;
    refused(&rt, b"bus,parent,r\r\nx,x,x", 5, 14)?;
    refused(&rt, b"bus,parent,r\r\n-1,0,0.1", 5, 14)
}

#[test]
fn parents(rt: HostRuntime) -> Result<(), Fail> {
    refused(&rt, b"bus,parent,r\r\n1,2,0.1", 19, 16)?;
    refused(&rt, b"bus,parent,r\r\n1,0,0.1\r\n2,3,0.1", 19, 25)?;
    refused(&rt, b"bus,parent,r\r\n1,2,x", 19, 16)?;
    refused(&rt, b"bus,parent,r\r\n1,,0.1", 5, 16)?;
    refused(&rt, b"bus,parent,r\r\n1,x,0.1", 5, 16)
}

#[test]
fn resistances(rt: HostRuntime) -> Result<(), Fail> {
    reads(&rt, b"bus,parent,r\r\n1,0,1", &[line(0, 1_000_000)])?;
    reads(&rt, b"bus,parent,r\r\n1,0,0.000001", &[line(0, 1)])?;
    refused(&rt, b"bus,parent,r\r\n1,0,0", 19, 18)?;
    refused(&rt, b"bus,parent,r\r\n1,0,-0.5", 19, 18)?;
    refused(&rt, b"bus,parent,r\r\n1,0,1.000001", 19, 18)?;
    refused(&rt, b"bus,parent,r\r\n1,0,0.0000001", 5, 18)?;
    refused(&rt, b"bus,parent,r\r\n1,0,", 5, 18)?;
    refused(&rt, b"bus,parent,r\r\n1,0,0.1\r\n2,1,0", 19, 27)
}

#[test]
fn loops(rt: HostRuntime) -> Result<(), Fail> {
    refused(&rt, b"bus,parent,r\r\n1,2,0.1\r\n2,1,0.1", 20, 1)?;
    refused(&rt, b"bus,parent,r\r\n1,1,0.1", 20, 1)?;
    refused(&rt, b"bus,parent,r\r\n1,0,0.1\r\n2,2,0.1", 20, 2)?;
    // A wrong entry is told before a loop.
    refused(&rt, b"bus,parent,r\r\n1,1,0.1\r\n2,0,0", 19, 27)
}

#[test]
fn the_farthest_bus(rt: HostRuntime) -> Result<(), Fail> {
    reads(
        &rt,
        b"bus,parent,r\r\n1,0,0.999999\r\n2,1,0.000001",
        &[line(0, 999_999), line(1, 1)],
    )?;
    refused(&rt, b"bus,parent,r\r\n1,0,0.999999\r\n2,1,0.000002", 20, 2)
}

// A file of n buses, each from the substation, in records of 10 bytes with their line ends.
fn star(n: usize) -> Result<ArrayString<664>, Fail> {
    let mut file = ArrayString::new();
    file.try_push_str("bus,parent,r\r\n")?;
    for bus in 1..=n {
        write!(file, "{bus:02},0,0.1\r\n")?;
    }
    Ok(file)
}

#[test]
fn sixty_four_buses_and_one_more(rt: HostRuntime) -> Result<(), Fail> {
    let most = star(64)?;
    assert_eq!(rt; most.len(), 654);
    let map = read(most.as_bytes())?;
    assert_eq!(rt; map.buses(), 64);
    assert_eq!(rt; map.distance(64), Some(100_000));
    let more = star(65)?;
    assert_eq!(rt; more.len(), 664);
    refused(&rt, more.as_bytes(), 19, 654)
}

// A chain of 101 buses with resistance 1: 9 records of 14 bytes behind the header, one of 15, 89 of 16, one of 17 and one of 18.
#[test]
fn numbers_of_two_and_three_digits(rt: HostRuntime) -> Result<(), Fail> {
    let lines: [Line; 101] = array::from_fn(|i| line(i, 1));
    let map = Map::from_lines(101, &lines)?;
    let mut out = [0; 2_300];
    assert_eq!(rt; write_map(&map, &mut out).ok(), Some(1_614));
    assert_eq!(rt; &out[126..140], b"9,8,0.000001\r\n".as_slice());
    assert_eq!(rt; &out[140..155], b"10,9,0.000001\r\n".as_slice());
    assert_eq!(rt; &out[155..171], b"11,10,0.000001\r\n".as_slice());
    assert_eq!(rt; &out[1_579..1_596], b"100,99,0.000001\r\n".as_slice());
    assert_eq!(rt; &out[1_596..1_614], b"101,100,0.000001\r\n".as_slice());
    assert_eq!(rt; out[1_614], 0);
    Ok(())
}
