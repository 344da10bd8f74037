use crate::given::{MUTE, THREE, leaves_three, three, three_lines};
use feeder::{Kind, Map};
use probing::Source;
use refusals::Layer;
use sources::FeederSource;
use std::process::Abort;
use std::test::Fail;
use survey::{survey_feeder, survey_file};

// Whether a survey is refused so, and leaves the map of three buses in its place.
fn turned_down(
    rt: &impl Abort,
    file: &[u8],
    kind: Kind,
    layer: Layer,
    number: u8,
    place: usize,
) -> Result<(), Fail> {
    leaves_three(rt, |map| survey_file(file, kind, map), layer, number, place)
}

#[test]
fn a_file_of_three_buses(rt: HostRuntime) -> Result<(), Fail> {
    let mut map = Map::new();
    survey_file(THREE, Kind::Complete, &mut map)?;
    three(&rt, &map)
}

#[test]
fn the_first_refusal_ends_a_survey(rt: HostRuntime) -> Result<(), Fail> {
    turned_down(&rt, b"", Kind::Complete, Layer::File, 3, 0)?;
    turned_down(&rt, MUTE, Kind::Reduced, Layer::Source, 12, 2)?;
    turned_down(&rt, THREE, Kind::Reduced, Layer::Drawing, 17, 1)?;
    turned_down(
        &rt,
        b"probe,step,1\r\n1,1.000,-0.000005",
        Kind::Reduced,
        Layer::Drawing,
        18,
        0,
    )
}

#[test]
fn a_feeder_comes_back(rt: HostRuntime) -> Result<(), Fail> {
    let mut source = FeederSource::new();
    let mut map = Map::new();
    survey_feeder(
        &three_lines()?,
        &[3, 2],
        &[5, -7, 11],
        &mut source,
        &mut map,
    )?;
    three(&rt, &map)?;
    assert_eq!(rt; map.metered(), 3);
    assert_eq!(rt; source.setting(2), 0);
    assert_eq!(rt; source.setting(3), 0);
    assert_eq!(rt; source.read(2).ok(), Some(-7));
    Ok(())
}

// Whether a survey of the feeder of three buses with these inverters is refused so, and leaves the source as it was too.
fn not_surveyed(
    rt: &impl Abort,
    inverters: &[usize],
    layer: Layer,
    number: u8,
    place: usize,
) -> Result<(), Fail> {
    let lines = three_lines()?;
    let mut source = FeederSource::new();
    leaves_three(
        rt,
        |map| survey_feeder(&lines, inverters, &[0, 0, 0], &mut source, map),
        layer,
        number,
        place,
    )?;
    assert_eq!(rt; source.buses(), 1);
    Ok(())
}

#[test]
fn an_end_without_an_inverter(rt: HostRuntime) -> Result<(), Fail> {
    not_surveyed(&rt, &[2], Layer::Drawing, 18, 0)
}

#[test]
fn a_feeder_that_is_not_made(rt: HostRuntime) -> Result<(), Fail> {
    not_surveyed(&rt, &[3, 2, 3], Layer::Source, 21, 2)
}
