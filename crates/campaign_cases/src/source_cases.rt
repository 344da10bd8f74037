use crate::given::{MUTE, THREE, refused, table, three_buses, three_lines};
use feeder::Map;
use probing::Source;
use refusals::Layer;
use sources::FeederSource;
use std::process::Abort;
use std::test::Fail;

fn inverters<S: Source>(rt: &impl Abort, source: &S) {
    assert!(rt; source.buses() == 3);
    assert!(rt; !source.has_inverter(0));
    assert!(rt; !source.has_inverter(1));
    assert!(rt; source.has_inverter(2));
    assert!(rt; source.has_inverter(3));
    assert!(rt; !source.has_inverter(4));
}

fn settings<S: Source>(rt: &impl Abort, source: &S, two: i32, three: i32) {
    assert_eq!(rt; source.setting(1), 0);
    assert_eq!(rt; source.setting(2), two);
    assert_eq!(rt; source.setting(3), three);
    assert_eq!(rt; source.setting(4), 0);
}

fn readings<S: Source>(rt: &impl Abort, source: &S, one: i64, two: i64, three: i64) {
    assert_eq!(rt; source.read(1), Ok(one));
    assert_eq!(rt; source.read(2), Ok(two));
    assert_eq!(rt; source.read(3), Ok(three));
}

fn stands<S: Source>(rt: &impl Abort, source: &S) {
    settings(rt, source, 0, 0);
    readings(rt, source, 0, 0, 0);
}

// Inverter 2 is commanded and withdrawn, and inverter 3 in between.
fn commands<S: Source>(rt: &impl Abort, source: &mut S) -> Result<(), Fail> {
    source.command(2, 100)?;
    settings(rt, source, 100, 0);
    readings(rt, source, 30_000, 50_000, 30_000);
    source.command(3, -50)?;
    settings(rt, source, 100, -50);
    readings(rt, source, 15_000, 35_000, -10_000);
    source.withdraw(3)?;
    readings(rt, source, 30_000, 50_000, 30_000);
    source.withdraw(2)?;
    stands(rt, source);
    Ok(())
}

// Inverter 3 sheds power: each bus by what its way shares with bus 3's.
fn sheds<S: Source>(rt: &impl Abort, source: &mut S) -> Result<(), Fail> {
    source.command(3, -100)?;
    settings(rt, source, 0, -100);
    readings(rt, source, -30_000, -30_000, -80_000);
    source.withdraw(3)?;
    stands(rt, source);
    Ok(())
}

fn bad_commands<S: Source>(rt: &impl Abort, source: &mut S) -> Result<(), Fail> {
    refused(rt, source.command(1, 100), Layer::Source, 9, 1)?;
    refused(rt, source.command(1, 0), Layer::Source, 9, 1)?;
    refused(rt, source.command(4, 100), Layer::Source, 9, 4)?;
    refused(rt, source.command(2, 0), Layer::Source, 10, 2)?;
    refused(rt, source.command(2, 1_001), Layer::Source, 10, 2)?;
    refused(rt, source.command(2, -1_001), Layer::Source, 10, 2)?;
    stands(rt, source);
    Ok(())
}

fn commands_twice<S: Source>(rt: &impl Abort, source: &mut S) -> Result<(), Fail> {
    source.command(2, 100)?;
    refused(rt, source.command(2, 100), Layer::Source, 13, 2)?;
    refused(rt, source.command(2, 0), Layer::Source, 10, 2)?;
    settings(rt, source, 100, 0);
    source.withdraw(2)?;
    source.command(2, -1_000)?;
    settings(rt, source, -1_000, 0);
    Ok(())
}

fn bad_readings<S: Source>(rt: &impl Abort, source: &mut S) -> Result<(), Fail> {
    refused(rt, source.read(4), Layer::Source, 12, 4)?;
    refused(rt, source.read(0), Layer::Source, 12, 0)?;
    refused(rt, source.withdraw(1), Layer::Source, 9, 1)?;
    source.withdraw(2)?;
    stands(rt, source);
    Ok(())
}

fn answers<S: Source>(rt: &impl Abort, source: &mut S) -> Result<(), Fail> {
    inverters(rt, source);
    stands(rt, source);
    commands(rt, source)?;
    sheds(rt, source)?;
    bad_commands(rt, source)?;
    bad_readings(rt, source)?;
    commands_twice(rt, source)
}

#[test]
fn a_table_answers(rt: HostRuntime) -> Result<(), Fail> {
    let mut source = table(THREE)?;
    answers(&rt, &mut source)
}

#[test]
fn a_feeder_answers_alike(rt: HostRuntime) -> Result<(), Fail> {
    let mut source = three_buses()?;
    answers(&rt, &mut source)
}

// Whether no source is made so, and the place is as it was.
fn not_made(
    rt: &impl Abort,
    map: &Map,
    inverters: &[usize],
    standing: &[i64],
    place: usize,
) -> Result<(), Fail> {
    let mut source = FeederSource::new();
    refused(
        rt,
        source.make(map, inverters, standing),
        Layer::Source,
        21,
        place,
    )?;
    assert_eq!(rt; source.buses(), 1);
    Ok(())
}

#[test]
fn feeders_that_are_not_made(rt: HostRuntime) -> Result<(), Fail> {
    let map = three_lines()?;
    not_made(&rt, &map, &[2, 2], &[0, 0, 0], 1)?;
    not_made(&rt, &map, &[4], &[0, 0, 0], 0)?;
    not_made(&rt, &map, &[3, 0], &[0, 0, 0], 1)?;
    not_made(&rt, &map, &[2], &[0, 0], 2)?;
    not_made(&rt, &map, &[2], &[0, 1_000_000_001, 0], 1)?;
    not_made(&rt, &map, &[4], &[0, 0], 0)?;
    not_made(&rt, &Map::new(), &[2], &[0], 0)
}

#[test]
fn standing_voltages_are_read(rt: HostRuntime) -> Result<(), Fail> {
    let map = three_lines()?;
    let mut source = FeederSource::new();
    source.make(&map, &[3], &[1_000_000_000, -1_000_000_000, 7])?;
    readings(&rt, &source, 1_000_000_000, -1_000_000_000, 7);
    source.command(3, 1)?;
    readings(&rt, &source, 1_000_000_300, -999_999_700, 807);
    Ok(())
}

#[test]
fn a_mute_meter_is_not_read(rt: HostRuntime) -> Result<(), Fail> {
    let mut source = table(MUTE)?;
    refused(&rt, source.read(2), Layer::Source, 12, 2)?;
    source.command(1, 100)?;
    refused(&rt, source.read(2), Layer::Source, 12, 2)?;
    assert_eq!(rt; source.read(1), Ok(10_000_000));
    Ok(())
}
