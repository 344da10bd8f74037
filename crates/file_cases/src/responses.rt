use files::Table;
use refusals::{Layer, Refusal};
use std::alloc::{AllocError, Global};
use std::process::Abort;
use std::test::Fail;

// Whether reading refuses with this number at this place, and leaves a table that is filled already as it was, whole.
fn refused(rt: &impl Abort, file: &[u8], number: u8, place: usize) -> Result<(), Fail> {
    let filled = read(b"probe,step,1,2\r\n2,0.1,0.0002,")?;
    let mut table = filled;
    let fault = table.read(file).err().ok_or("accepted")?;
    assert_eq!(rt;
        Refusal::from(fault),
        Refusal {
            number,
            layer: Layer::File,
            place
        }
    );
    assert!(rt; table == filled);
    Ok(())
}

// The step of inverter m, and the responses of the first two buses to it.
fn probed(rt: &impl Abort, table: &Table, m: usize) -> Result<(i64, i64, i64), Fail> {
    assert!(rt; (1..=64).contains(&m));
    let probe = table.probes[m - 1].ok_or("not probed")?;
    Ok((probe.step, table.response(1, m), table.response(2, m)))
}

fn read(file: &[u8]) -> Result<Table, Fail> {
    let mut table = Table::new();
    table.read(file)?;
    Ok(table)
}

#[test]
fn a_file_of_three_buses(rt: HostRuntime) -> Result<(), Fail> {
    let table = read(
        b"probe,step,1,2,3\r\n2,-0.500,-0.00015,-0.00025,-0.00015\r\n3,0.250,0.000075,0.000075,0.0002\r\n",
    )?;
    assert_eq!(rt; table.buses, 3);
    assert_eq!(rt; probed(&rt, &table, 2)?, (-500, 300, 500));
    assert_eq!(rt; probed(&rt, &table, 3)?, (250, 300, 300));
    assert!(rt; table.probes[0].is_none());
    assert!(rt; !table.is_mute(1) && !table.is_mute(2) && !table.is_mute(3));
    Ok(())
}

#[test]
fn quoted_numbers_and_blanks(rt: HostRuntime) -> Result<(), Fail> {
    let table = read(b"\"probe\",\"step\",\"1\",\"2\"\r\n\"1\",\"-1.000\",,\"-0.5\"")?;
    assert_eq!(rt; probed(&rt, &table, 1)?, (-1000, 0, 500_000));
    assert!(rt; table.is_mute(1) && !table.is_mute(2));
    let probe = table.probes[0].ok_or("not probed")?;
    assert_eq!(rt; probe.changes[0], None);
    assert_eq!(rt; probe.changes[1], Some(-500_000_000));
    Ok(())
}

// What a file gives is kept: which record is blank, and that its meter is mute for every inverter.
#[test]
fn a_blank_in_one_record(rt: HostRuntime) -> Result<(), Fail> {
    let table = read(b"probe,step,1,2\r\n1,0.1,0.00003,\r\n2,-0.1,-0.00003,-0.00005\r\n")?;
    assert!(rt; !table.is_mute(1) && table.is_mute(2) && !table.is_mute(3) && !table.is_mute(0));
    assert_eq!(rt; probed(&rt, &table, 1)?, (100, 300, 0));
    assert_eq!(rt; probed(&rt, &table, 2)?, (-100, 300, 500));
    let first = table.probes[0].ok_or("not probed")?;
    assert_eq!(rt; first.changes[1], None);
    let second = table.probes[1].ok_or("not probed")?;
    assert_eq!(rt; second.changes[1], Some(-50_000));
    assert_eq!(rt; table.response(1, 3), 0);
    assert_eq!(rt; table.response(0, 1), 0);
    assert_eq!(rt; table.response(1, 0), 0);
    Ok(())
}

#[test]
fn headers(rt: HostRuntime) -> Result<(), Fail> {
    assert_eq!(rt; read(b"probe,step,1\r\n")?.buses, 1);
    refused(&rt, b"", 3, 0)?;
    refused(&rt, b"\r\n", 3, 0)?;
    refused(&rt, b"\"\"", 3, 0)?;
    refused(&rt, b"probe", 3, 5)?;
    refused(&rt, b"probe,step", 3, 10)?;
    refused(&rt, b"probe,step\r\n", 3, 10)?;
    refused(&rt, b"Probe,step,1", 3, 0)?;
    refused(&rt, b"probe,steps,1", 3, 6)?;
    refused(&rt, b"probe,step,01", 3, 11)?;
    refused(&rt, b"probe,step,1,3", 3, 13)?;
    refused(&rt, b"probe,step,1,", 3, 13)
}

#[test]
fn field_counts(rt: HostRuntime) -> Result<(), Fail> {
    refused(&rt, b"probe,step,1\r\n1,0.1", 4, 14)?;
    refused(&rt, b"probe,step,1\r\n1,0.1,0,0", 4, 14)?;
    refused(&rt, b"probe,step,1\r\n1,0.1,0\r\n\r\n2,0.1,0", 4, 23)
}

#[test]
fn inverters(rt: HostRuntime) -> Result<(), Fail> {
    refused(&rt, b"probe,step,1\r\nx,x,x", 5, 14)?;
    refused(&rt, b"probe,step,1\r\n,0.1,0", 5, 14)?;
    refused(&rt, b"probe,step,1\r\n0,0.1,0", 6, 14)?;
    refused(&rt, b"probe,step,1\r\n2,0.1,0", 6, 14)?;
    refused(&rt, b"probe,step,1\r\n1,0.1,0\r\n01,0.1,0", 6, 23)
}

#[test]
fn steps(rt: HostRuntime) -> Result<(), Fail> {
    assert_eq!(rt;
        probed(&rt, &read(b"probe,step,1\r\n1,-1.000,0")?, 1)?,
        (-1000, 0, 0)
    );
    refused(&rt, b"probe,step,1\r\n1,1.001,0", 7, 16)?;
    refused(&rt, b"probe,step,1\r\n1,-0.000,0", 7, 16)?;
    refused(&rt, b"probe,step,1\r\n1,0.2505,0", 5, 16)?;
    refused(&rt, b"probe,step,1\r\n1,\"\",0", 5, 16)
}

#[test]
fn changes(rt: HostRuntime) -> Result<(), Fail> {
    refused(&rt, b"probe,step,1\r\n1,0.002,0.000000001", 8, 22)?;
    refused(&rt, b"probe,step,1\r\n1,0.1,\"\"", 5, 20)?;
    refused(&rt, b"probe,step,1\r\n1,0.1,0.0000000001", 5, 20)?;
    refused(&rt, b"probe,step,1\r\n1,0.001,0.001000001", 8, 22)?;
    assert_eq!(rt;
        probed(&rt, &read(b"probe,step,1\r\n1,0.001,-0.001")?, 1)?,
        (1, -1_000_000, 0)
    );
    refused(&rt, b"probe,step,1,2\r\n1,0.1,x,y", 5, 22)
}

// The first rule that is broken counts: the record's count of fields, and then its fields from the left.
#[test]
fn two_faults_in_one_record(rt: HostRuntime) -> Result<(), Fail> {
    refused(&rt, b"probe,step,1\r\n2,0,0", 6, 14)?;
    refused(&rt, b"probe,step,1\r\nx,0.1", 4, 14)?;
    refused(&rt, b"probe,step,1\r\n1,0,x", 7, 16)?;
    refused(&rt, b"probe,step,1,2\r\n1,0.002,0.000000001,x", 8, 24)
}

// And the record before another.
#[test]
fn faults_in_two_records(rt: HostRuntime) -> Result<(), Fail> {
    refused(&rt, b"probe,step,1\r\n1,0.002,0.000000001\r\n1", 8, 22)?;
    refused(&rt, b"probe,step,1\r\n1,0.1\r\nx,0.1,0", 4, 14)
}

#[test]
fn bytes_first(rt: HostRuntime) -> Result<(), Fail> {
    refused(&rt, b"bad\nheader", 1, 3)?;
    refused(&rt, b"probe,step,1\r\n1,0.1,\"0", 1, 22)
}

// A header of n buses.
fn header(alloc: Global, n: usize) -> Result<String, AllocError> {
    let mut text = String::new(alloc);
    write!(text, "probe,step")?;
    for bus in 1..=n {
        write!(text, ",{bus}")?;
    }
    Ok(text)
}

#[test]
fn sixty_four_buses_and_one_more(rt: HostRuntime) -> Result<(), Fail> {
    let most = header(rt.alloc(), 64)?;
    assert_eq!(rt; most.len(), 193);
    assert_eq!(rt; read(most.as_bytes())?.buses, 64);
    let more = header(rt.alloc(), 65)?;
    assert_eq!(rt; more.len(), 196);
    refused(&rt, more.as_bytes(), 3, 194)
}
