use crate::given::{THREE, has_line, leaves_three, table, three, three_buses};
use campaign::{Campaign, open_campaign, probe_all};
use drawing::draw_campaign;
use feeder::{Kind, Map};
use probing::Source;
use refusals::Layer;
use std::process::Abort;
use std::test::Fail;

fn surveyed(file: &[u8]) -> Result<Campaign, Fail> {
    let mut source = table(file)?;
    Ok(probe_all(&mut source, 100)?)
}

pub(crate) fn drawn(campaign: &Campaign, kind: Kind) -> Result<Map, Fail> {
    let mut map = Map::new();
    draw_campaign(campaign, kind, &mut map)?;
    Ok(map)
}

// Whether a drawing is refused so, and leaves the map of three buses in its place.
pub(crate) fn turned_down(
    rt: &impl Abort,
    campaign: &Campaign,
    kind: Kind,
    number: u8,
    place: usize,
) -> Result<(), Fail> {
    leaves_three(
        rt,
        |map| draw_campaign(campaign, kind, map),
        Layer::Drawing,
        number,
        place,
    )
}

#[test]
fn three_metered_buses(rt: HostRuntime) -> Result<(), Fail> {
    let campaign = surveyed(THREE)?;
    three(&rt, &drawn(&campaign, Kind::Complete)?)?;
    turned_down(&rt, &campaign, Kind::Reduced, 17, 1)
}

#[test]
fn a_feeder_is_drawn_back(rt: HostRuntime) -> Result<(), Fail> {
    let mut source = three_buses()?;
    let campaign = probe_all(&mut source, -1)?;
    three(&rt, &drawn(&campaign, Kind::Complete)?)
}

#[test]
fn a_column_is_missing(rt: HostRuntime) -> Result<(), Fail> {
    let mut source = table(THREE)?;
    let mut campaign = open_campaign(&source);
    turned_down(&rt, &campaign, Kind::Complete, 16, 2)?;
    turned_down(&rt, &campaign, Kind::Reduced, 16, 2)?;
    campaign.probe(&mut source, 2, 100)?;
    turned_down(&rt, &campaign, Kind::Complete, 16, 3)?;
    campaign.probe(&mut source, 3, 100)?;
    three(&rt, &drawn(&campaign, Kind::Complete)?)
}

#[test]
fn a_column_is_missing_before_another(rt: HostRuntime) -> Result<(), Fail> {
    let mut source = table(THREE)?;
    let mut campaign = open_campaign(&source);
    campaign.probe(&mut source, 3, 100)?;
    turned_down(&rt, &campaign, Kind::Complete, 16, 2)
}

#[test]
fn a_bus_at_the_substation(rt: HostRuntime) -> Result<(), Fail> {
    let campaign = surveyed(b"probe,step,1\r\n1,1.000,0.000000")?;
    turned_down(&rt, &campaign, Kind::Complete, 18, 0)?;
    turned_down(&rt, &campaign, Kind::Reduced, 18, 0)
}

#[test]
fn a_fork_between_two_buses(rt: HostRuntime) -> Result<(), Fail> {
    let campaign = surveyed(
        b"probe,step,1,2\r\n1,1.000,0.000500,0.000300\r\n2,1.000,0.000300,0.000800",
    )?;
    turned_down(&rt, &campaign, Kind::Complete, 18, 0)?;
    let map = drawn(&campaign, Kind::Reduced)?;
    assert_eq!(rt; map.buses(), 3);
    has_line(&rt, &map, 1, 3, 200);
    has_line(&rt, &map, 2, 3, 500);
    has_line(&rt, &map, 3, 0, 300);
    Ok(())
}

#[test]
fn a_bus_below_another(rt: HostRuntime) -> Result<(), Fail> {
    let campaign = surveyed(
        b"probe,step,1,2\r\n1,1.000,0.000300,0.000300\r\n2,1.000,0.000300,0.000500",
    )?;
    let map = drawn(&campaign, Kind::Reduced)?;
    assert_eq!(rt; map.buses(), 2);
    has_line(&rt, &map, 1, 0, 300);
    has_line(&rt, &map, 2, 1, 200);
    Ok(())
}

#[test]
fn two_columns_that_differ(rt: HostRuntime) -> Result<(), Fail> {
    let campaign = surveyed(
        b"probe,step,1,2\r\n1,1.000,0.000500,0.000300\r\n2,1.000,0.000200,0.000800",
    )?;
    turned_down(&rt, &campaign, Kind::Complete, 18, 0)?;
    turned_down(&rt, &campaign, Kind::Reduced, 18, 0)
}

#[test]
fn three_columns_of_no_tree(rt: HostRuntime) -> Result<(), Fail> {
    let campaign = surveyed(
        b"probe,step,1,2,3\r\n1,1.000,0.000900,0.000500,0.000100\r\n2,1.000,0.000500,0.000900,0.000400\r\n3,1.000,0.000100,0.000400,0.000900",
    )?;
    turned_down(&rt, &campaign, Kind::Reduced, 18, 0)
}

#[test]
fn a_fork_of_three(rt: HostRuntime) -> Result<(), Fail> {
    let campaign = surveyed(
        b"probe,step,1,2,3\r\n1,1.000,0.000400,0.000300,0.000300\r\n2,1.000,0.000300,0.000400,0.000300\r\n3,1.000,0.000300,0.000300,0.000400",
    )?;
    let map = drawn(&campaign, Kind::Reduced)?;
    assert_eq!(rt; map.buses(), 4);
    has_line(&rt, &map, 1, 4, 100);
    has_line(&rt, &map, 2, 4, 100);
    has_line(&rt, &map, 3, 4, 100);
    has_line(&rt, &map, 4, 0, 300);
    Ok(())
}
