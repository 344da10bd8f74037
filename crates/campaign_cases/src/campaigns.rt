use crate::given::{MUTE, THREE, table, three_buses, three_standing, told};
use crate::hands::{foreign, hand_over, second, swapped};
use campaign::{Campaign, CampaignRefusal, open_campaign, probe_all};
use probing::Source;
use refusals::Layer;
use sources::TableSource;
use std::process::Abort;
use std::test::Fail;

// Whether a refusal names this inverter, and is told so.
pub(crate) fn told_of(
    rt: &impl Abort,
    refusal: CampaignRefusal,
    inverter: usize,
    layer: Layer,
    number: u8,
    place: usize,
) {
    assert_eq!(rt; refusal.inverter, inverter);
    told(rt, refusal.fault, layer, number, place);
}

// Whether a probing that named the inverter was refused so.
pub(crate) fn refused_of(
    rt: &impl Abort,
    answer: Result<(), CampaignRefusal>,
    inverter: usize,
    layer: Layer,
    number: u8,
    place: usize,
) -> Result<(), Fail> {
    let refusal = answer.err().ok_or("accepted")?;
    told_of(rt, refusal, inverter, layer, number, place);
    Ok(())
}

// The column of an inverter over three buses.
pub(crate) fn column(
    rt: &impl Abort,
    campaign: &Campaign,
    inverter: usize,
    one: i64,
    two: i64,
    three: i64,
) {
    assert!(rt; campaign.has_column(inverter));
    assert_eq!(rt; campaign.response(1, inverter), Some(one));
    assert_eq!(rt; campaign.response(2, inverter), Some(two));
    assert_eq!(rt; campaign.response(3, inverter), Some(three));
}

pub(crate) fn no_column(rt: &impl Abort, campaign: &Campaign, inverter: usize) {
    assert!(rt; !campaign.has_column(inverter));
    assert_eq!(rt; campaign.response(1, inverter), None);
}

#[test]
fn one_column_after_the_other(rt: HostRuntime) -> Result<(), Fail> {
    let mut source = table(THREE)?;
    let mut campaign = open_campaign(&source);
    no_column(&rt, &campaign, 2);
    campaign.probe(&mut source, 2, 100)?;
    column(&rt, &campaign, 2, 300, 500, 300);
    no_column(&rt, &campaign, 3);
    campaign.probe(&mut source, 3, -1_000)?;
    column(&rt, &campaign, 3, 300, 300, 800);
    column(&rt, &campaign, 2, 300, 500, 300);
    no_column(&rt, &campaign, 1);
    Ok(())
}

#[test]
fn all_columns_at_once(rt: HostRuntime) -> Result<(), Fail> {
    let mut source = table(THREE)?;
    let campaign = probe_all(&mut source, 100)?;
    column(&rt, &campaign, 2, 300, 500, 300);
    column(&rt, &campaign, 3, 300, 300, 800);
    no_column(&rt, &campaign, 1);
    assert_eq!(rt; source.setting(2), 0);
    assert_eq!(rt; source.setting(3), 0);
    Ok(())
}

#[test]
fn all_columns_of_lines(rt: HostRuntime) -> Result<(), Fail> {
    let mut source = three_buses()?;
    let campaign = probe_all(&mut source, -7)?;
    column(&rt, &campaign, 2, 300, 500, 300);
    column(&rt, &campaign, 3, 300, 300, 800);
    no_column(&rt, &campaign, 1);
    Ok(())
}

#[test]
fn the_source_refuses(rt: HostRuntime) -> Result<(), Fail> {
    let mut source = table(THREE)?;
    let mut campaign = open_campaign(&source);
    refused_of(
        &rt,
        campaign.probe(&mut source, 1, 100),
        1,
        Layer::Source,
        9,
        1,
    )?;
    refused_of(
        &rt,
        campaign.probe(&mut source, 2, 0),
        2,
        Layer::Source,
        10,
        2,
    )?;
    no_column(&rt, &campaign, 2);
    Ok(())
}

#[test]
fn a_mute_meter_stops_the_commencing(rt: HostRuntime) -> Result<(), Fail> {
    let mut source = table(MUTE)?;
    let mut campaign = open_campaign(&source);
    refused_of(
        &rt,
        campaign.probe(&mut source, 1, 100),
        1,
        Layer::Source,
        12,
        2,
    )?;
    assert_eq!(rt; source.setting(1), 0);
    no_column(&rt, &campaign, 1);
    Ok(())
}

#[test]
fn another_source(rt: HostRuntime) -> Result<(), Fail> {
    let source = table(THREE)?;
    let mut campaign = open_campaign(&source);
    let mut other = TableSource::new();
    refused_of(
        &rt,
        campaign.probe(&mut other, 2, 100),
        2,
        Layer::Campaign,
        14,
        2,
    )?;
    let mut fewer = table(b"probe,step,1,2,3\r\n2,1,0.0003,0.0005,0.0003")?;
    refused_of(
        &rt,
        campaign.probe(&mut fewer, 2, 100),
        2,
        Layer::Campaign,
        14,
        2,
    )?;
    assert_eq!(rt; fewer.setting(2), 0);
    no_column(&rt, &campaign, 2);
    Ok(())
}

#[test]
fn an_inverter_off_its_schedule(rt: HostRuntime) -> Result<(), Fail> {
    let mut source = table(THREE)?;
    source.command(2, 70)?;
    let mut campaign = open_campaign(&source);
    refused_of(
        &rt,
        campaign.probe(&mut source, 2, 100),
        2,
        Layer::Source,
        13,
        2,
    )?;
    no_column(&rt, &campaign, 2);
    campaign.probe(&mut source, 3, 100)?;
    column(&rt, &campaign, 3, 300, 300, 800);
    assert_eq!(rt; source.setting(2), 70);
    Ok(())
}

#[test]
fn a_second_step_is_refused(rt: HostRuntime) -> Result<(), Fail> {
    let mut source = table(THREE)?;
    let mut campaign = open_campaign(&source);
    let refusal = second(&mut campaign, &mut source, 2, 3, 100)?;
    told_of(&rt, refusal, 3, Layer::Campaign, 11, 2);
    no_column(&rt, &campaign, 2);
    assert_eq!(rt; source.setting(2), 0);
    campaign.probe(&mut source, 3, 100)?;
    column(&rt, &campaign, 3, 300, 300, 800);
    Ok(())
}

#[test]
fn a_step_of_another_campaign(rt: HostRuntime) -> Result<(), Fail> {
    let mut source = table(THREE)?;
    let mut campaign = open_campaign(&source);
    let refusal = foreign(&mut campaign, &mut source, 2, 100)?.ok_or("collected")?;
    told_of(&rt, refusal, 2, Layer::Campaign, 14, 2);
    no_column(&rt, &campaign, 2);
    assert_eq!(rt; source.setting(2), 0);
    Ok(())
}

// Whether a step of inverter 2 that is collected on a feeder with these standing voltages, which was commenced on one with
// none, is refused at the bus.
fn changed(rt: &impl Abort, standing: &[i64], bus: usize) -> Result<(), Fail> {
    let mut source = three_buses()?;
    let mut other = three_standing(standing)?;
    let mut campaign = open_campaign(&source);
    let refusal = swapped(&mut campaign, &mut source, &mut other, 2, 100)?.ok_or("collected")?;
    told_of(rt, refusal, 2, Layer::Campaign, 15, bus);
    no_column(rt, &campaign, 2);
    assert_eq!(rt; source.setting(2), 0);
    Ok(())
}

// A change of 7 is no multiple of 100, and one of 100,000,100 is more than 1,000,000 times as large.
#[test]
fn changes_that_no_response_gives(rt: HostRuntime) -> Result<(), Fail> {
    changed(&rt, &[0, 7, 3], 2)?;
    changed(&rt, &[100_000_000, 0, -3], 3)?;
    changed(&rt, &[100_000_100, 7, 0], 1)
}

#[test]
fn a_step_is_handed_over(rt: HostRuntime) -> Result<(), Fail> {
    let mut source = table(THREE)?;
    let mut campaign = open_campaign(&source);
    assert!(rt; hand_over(&mut campaign, &mut source, 2, 100)?);
    column(&rt, &campaign, 2, 300, 500, 300);
    no_column(&rt, &campaign, 3);
    assert_eq!(rt; source.setting(2), 0);
    Ok(())
}
