// A source of three buses that logs what it is told to do, written on the words of probing alone.
use crate::campaigns::{column, no_column, refused_of, told_of};
use crate::drawings::{drawn, turned_down};
use crate::given::{has_line, three, three_lines};
use crate::hands::{commence_and_withdraw, foreign, hand_over, second, swapped};
use campaign::{Campaign, open_campaign, probe_all};
use feeder::{Kind, Map};
use probing::Source;
use refusals::Layer;
use sources::FeederSource;
use std::process::Abort;
use std::test::Fail;
use three_buses::{BUSES, Entry, LOG_ROOM, ThreeBuses};

// The responses of the feeder of three buses: the ways of buses 2 and 3 part at bus 1.
const PARTING: [[i64; BUSES]; BUSES] = [[300, 300, 300], [300, 500, 300], [300, 300, 800]];

// The responses of a feeder whose ways to buses 1 and 2 part at distance 300, where no meter is; bus 3 is below bus 2.
const UNMETERED: [[i64; BUSES]; BUSES] = [[500, 300, 300], [300, 800, 800], [300, 800, 900]];

// Responses of no feeder: bus 2 answers inverter 1 otherwise than bus 1 answers inverter 2.
const UNEVEN: [[i64; BUSES]; BUSES] = [[500, 300, 300], [200, 800, 300], [300, 300, 900]];

const STANDING: [i64; BUSES] = [1_000_000_000, -999_999_999, 7];

fn answering(responses: [[i64; BUSES]; BUSES]) -> Result<ThreeBuses, Fail> {
    Ok(ThreeBuses::new(responses, STANDING).ok_or("beyond the bounds")?)
}

fn set(inverter: usize, step: i32) -> Entry {
    Entry::Command { inverter, step }
}

fn back(inverter: usize) -> Entry {
    Entry::Withdrawal { inverter }
}

// Whether a source logged these.
fn logged(rt: &impl Abort, source: &ThreeBuses, entries: &[Entry]) {
    assert_eq!(rt; source.log(), entries);
}

// Whether every inverter was commanded the step in rising order, and each withdrawn before the next.
fn probed_in_turn(rt: &impl Abort, source: &ThreeBuses, step: i32) {
    logged(
        rt,
        source,
        &[
            set(1, step),
            back(1),
            set(2, step),
            back(2),
            set(3, step),
            back(3),
        ],
    );
}

// Whether a campaign has the columns of the feeder of three buses.
fn parting(rt: &impl Abort, campaign: &Campaign) {
    column(rt, campaign, 1, 300, 300, 300);
    column(rt, campaign, 2, 300, 500, 300);
    column(rt, campaign, 3, 300, 300, 800);
}

#[test]
fn the_third_source_answers(rt: HostRuntime) -> Result<(), Fail> {
    let mut source = answering(UNEVEN)?;
    assert_eq!(rt; source.buses(), 3);
    assert!(rt; source.has_inverter(3));
    assert!(rt; !source.has_inverter(4));
    assert_eq!(rt; source.read(2).ok(), Some(-999_999_999));
    source.command(1, -2)?;
    assert_eq!(rt; source.setting(1), -2);
    assert_eq!(rt; source.read(1).ok(), Some(999_999_000));
    assert_eq!(rt; source.read(2).ok(), Some(-1_000_000_399));
    assert_eq!(rt; source.read(3).ok(), Some(-593));
    source.command(3, 1_000)?;
    assert_eq!(rt; source.read(3).ok(), Some(899_407));
    source.withdraw(1)?;
    assert_eq!(rt; source.read(3).ok(), Some(900_007));
    Ok(())
}

#[test]
fn the_third_source_is_bounded(rt: HostRuntime) -> Result<(), Fail> {
    let far = [[1_000_000, 0, 0], [0, -1_000_000, 0], [0, 0, 0]];
    let farther = [[0, 0, 0], [0, 0, -1_000_001], [0, 0, 0]];
    assert!(rt; ThreeBuses::new(far, [0, 1_000_000_000, -1_000_000_000]).is_some());
    assert!(rt; ThreeBuses::new(farther, STANDING).is_none());
    assert!(rt; ThreeBuses::new(far, [0, 0, 1_000_000_001]).is_none());
    Ok(())
}

#[test]
fn the_log_keeps_what_is_accepted(rt: HostRuntime) -> Result<(), Fail> {
    let mut source = answering(PARTING)?;
    assert!(rt; source.command(4, 1).is_err());
    assert!(rt; source.command(1, 0).is_err());
    source.command(2, 1)?;
    assert!(rt; source.command(2, 1).is_err());
    assert!(rt; source.withdraw(0).is_err());
    source.withdraw(3)?;
    logged(&rt, &source, &[set(2, 1), back(3)]);
    Ok(())
}

#[test]
fn a_full_log_keeps_the_first(rt: HostRuntime) -> Result<(), Fail> {
    let mut source = answering(PARTING)?;
    source.command(2, 9)?;
    for _ in 0..LOG_ROOM {
        source.withdraw(1)?;
    }
    source.command(3, 5)?;
    assert_eq!(rt; source.log().len(), 64);
    assert_eq!(rt; source.log()[0], set(2, 9));
    assert_eq!(rt; source.log()[63], back(1));
    assert_eq!(rt; source.setting(3), 5);
    Ok(())
}

// The first crew commences each step and hands it over; the second collects it and withdraws it.
#[test]
fn two_crews_draw_both_maps(rt: HostRuntime) -> Result<(), Fail> {
    let mut source = answering(PARTING)?;
    let mut campaign = open_campaign(&source);
    no_column(&rt, &campaign, 1);
    assert!(rt; hand_over(&mut campaign, &mut source, 1, 100)?);
    assert!(rt; hand_over(&mut campaign, &mut source, 2, 100)?);
    assert!(rt; hand_over(&mut campaign, &mut source, 3, 100)?);
    parting(&rt, &campaign);
    probed_in_turn(&rt, &source, 100);
    assert_eq!(rt; source.read(2).ok(), Some(-999_999_999));
    three(&rt, &drawn(&campaign, Kind::Complete)?)?;
    three(&rt, &drawn(&campaign, Kind::Reduced)?)
}

#[test]
fn two_crews_find_an_unmetered_bus(rt: HostRuntime) -> Result<(), Fail> {
    let mut source = answering(UNMETERED)?;
    let mut campaign = open_campaign(&source);
    assert!(rt; hand_over(&mut campaign, &mut source, 3, -1)?);
    assert!(rt; hand_over(&mut campaign, &mut source, 1, 1_000)?);
    assert!(rt; hand_over(&mut campaign, &mut source, 2, 7)?);
    logged(
        &rt,
        &source,
        &[
            set(3, -1),
            back(3),
            set(1, 1_000),
            back(1),
            set(2, 7),
            back(2),
        ],
    );
    turned_down(&rt, &campaign, Kind::Complete, 18, 0)?;
    let map = drawn(&campaign, Kind::Reduced)?;
    assert_eq!(rt; map.buses(), 4);
    assert_eq!(rt; map.metered(), 3);
    has_line(&rt, &map, 1, 4, 200);
    has_line(&rt, &map, 2, 4, 500);
    has_line(&rt, &map, 3, 2, 100);
    has_line(&rt, &map, 4, 0, 300);
    Ok(())
}

#[test]
fn probing_all_goes_in_rising_order(rt: HostRuntime) -> Result<(), Fail> {
    let mut source = answering(PARTING)?;
    let campaign = probe_all(&mut source, -3)?;
    probed_in_turn(&rt, &source, -3);
    parting(&rt, &campaign);
    Ok(())
}

#[test]
fn probing_all_ends_at_an_inverter_off_its_schedule(rt: HostRuntime) -> Result<(), Fail> {
    let mut source = answering(PARTING)?;
    source.command(2, 70)?;
    let refusal = probe_all(&mut source, 5).err().ok_or("probed")?;
    told_of(&rt, refusal, 2, Layer::Source, 13, 2);
    logged(&rt, &source, &[set(2, 70), set(1, 5), back(1)]);
    Ok(())
}

// Inverter 3 stays where it was at the opening.
#[test]
fn a_setting_at_the_opening_stays(rt: HostRuntime) -> Result<(), Fail> {
    let mut source = answering(PARTING)?;
    source.command(3, 70)?;
    let mut campaign = open_campaign(&source);
    refused_of(
        &rt,
        commence_and_withdraw(&mut campaign, &mut source, 3, 100),
        3,
        Layer::Source,
        13,
        3,
    )?;
    assert!(rt; hand_over(&mut campaign, &mut source, 2, 100)?);
    column(&rt, &campaign, 2, 300, 500, 300);
    no_column(&rt, &campaign, 3);
    assert_eq!(rt; source.setting(3), 70);
    logged(&rt, &source, &[set(3, 70), set(2, 100), back(2)]);
    Ok(())
}

#[test]
fn commencing_without_such_an_inverter(rt: HostRuntime) -> Result<(), Fail> {
    let mut source = answering(PARTING)?;
    let mut campaign = open_campaign(&source);
    refused_of(
        &rt,
        commence_and_withdraw(&mut campaign, &mut source, 4, 100),
        4,
        Layer::Source,
        9,
        4,
    )?;
    logged(&rt, &source, &[]);
    Ok(())
}

#[test]
fn commencing_too_large_a_step(rt: HostRuntime) -> Result<(), Fail> {
    let mut source = answering(PARTING)?;
    let mut campaign = open_campaign(&source);
    refused_of(
        &rt,
        commence_and_withdraw(&mut campaign, &mut source, 3, -1_001),
        3,
        Layer::Source,
        10,
        3,
    )?;
    logged(&rt, &source, &[]);
    Ok(())
}

// The lowest of the two is told, and no inverter was commanded.
#[test]
fn commencing_with_two_mute_meters(rt: HostRuntime) -> Result<(), Fail> {
    let mut source = answering(PARTING)?;
    source.mute(3);
    source.mute(2);
    let mut campaign = open_campaign(&source);
    refused_of(
        &rt,
        commence_and_withdraw(&mut campaign, &mut source, 1, 100),
        1,
        Layer::Source,
        12,
        2,
    )?;
    logged(&rt, &source, &[]);
    Ok(())
}

#[test]
fn one_crew_at_a_time(rt: HostRuntime) -> Result<(), Fail> {
    let mut source = answering(PARTING)?;
    let mut campaign = open_campaign(&source);
    let refusal = second(&mut campaign, &mut source, 3, 1, 100)?;
    told_of(&rt, refusal, 1, Layer::Campaign, 11, 3);
    logged(&rt, &source, &[set(3, 100), back(3)]);
    Ok(())
}

#[test]
fn the_crew_of_another_campaign(rt: HostRuntime) -> Result<(), Fail> {
    let mut source = answering(PARTING)?;
    let mut campaign = open_campaign(&source);
    let refusal = foreign(&mut campaign, &mut source, 1, 100)?.ok_or("collected")?;
    told_of(&rt, refusal, 1, Layer::Campaign, 14, 1);
    no_column(&rt, &campaign, 1);
    logged(&rt, &source, &[set(1, 100), back(1)]);
    Ok(())
}

// The campaign was opened where bus 1 has no inverter.
#[test]
fn a_campaign_of_fewer_inverters(rt: HostRuntime) -> Result<(), Fail> {
    let mut campaign = open_campaign(&lines_with(&[2, 3])?);
    let mut source = answering(PARTING)?;
    refused_of(
        &rt,
        commence_and_withdraw(&mut campaign, &mut source, 2, 100),
        2,
        Layer::Campaign,
        14,
        2,
    )?;
    logged(&rt, &source, &[]);
    Ok(())
}

// The other source was not commanded. From the first's voltages its own differ by 200 at bus 1, which is a response of 2, and by
// -50 at bus 2, which is none.
#[test]
fn a_change_that_no_response_gives(rt: HostRuntime) -> Result<(), Fail> {
    let mut source = ThreeBuses::new(PARTING, [5, 6, 7]).ok_or("beyond the bounds")?;
    let mut other = ThreeBuses::new(PARTING, [205, -44, 8]).ok_or("beyond the bounds")?;
    let mut campaign = open_campaign(&source);
    let refusal = swapped(&mut campaign, &mut source, &mut other, 3, 100)?.ok_or("collected")?;
    told_of(&rt, refusal, 3, Layer::Campaign, 15, 2);
    no_column(&rt, &campaign, 3);
    logged(&rt, &source, &[set(3, 100), back(3)]);
    logged(&rt, &other, &[]);
    Ok(())
}

#[test]
fn drawing_before_the_last_column(rt: HostRuntime) -> Result<(), Fail> {
    let mut source = answering(PARTING)?;
    let mut campaign = open_campaign(&source);
    turned_down(&rt, &campaign, Kind::Complete, 16, 1)?;
    campaign.probe(&mut source, 1, 100)?;
    campaign.probe(&mut source, 3, 100)?;
    turned_down(&rt, &campaign, Kind::Complete, 16, 2)?;
    turned_down(&rt, &campaign, Kind::Reduced, 16, 2)
}

// The source that walks the lines of the three buses, with inverters at these.
fn lines_with(inverters: &[usize]) -> Result<FeederSource, Fail> {
    let map = three_lines()?;
    let mut source = FeederSource::new();
    source.make(&map, inverters, &[0, 0, 0])?;
    Ok(source)
}

// This source has an inverter at each bus, so another is asked.
#[test]
fn a_bus_without_an_inverter(rt: HostRuntime) -> Result<(), Fail> {
    let mut source = lines_with(&[1, 3])?;
    let campaign = probe_all(&mut source, 100)?;
    turned_down(&rt, &campaign, Kind::Reduced, 17, 2)
}

#[test]
fn responses_of_no_feeder(rt: HostRuntime) -> Result<(), Fail> {
    let mut source = answering(UNEVEN)?;
    let campaign = probe_all(&mut source, 100)?;
    column(&rt, &campaign, 1, 500, 200, 300);
    column(&rt, &campaign, 2, 300, 800, 300);
    turned_down(&rt, &campaign, Kind::Complete, 18, 0)?;
    turned_down(&rt, &campaign, Kind::Reduced, 18, 0)
}
