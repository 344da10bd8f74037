use crate::line::line;
use feeder::{Fault, Line, Map};
use std::array;
use std::process::Abort;
use std::test::Fail;

// Whether lines, of which none is metered, make no map, for this reason.
fn refused(rt: &impl Abort, lines: &[Line], reason: Fault) {
    assert_eq!(rt; Map::from_lines(0, lines).err(), Some(reason));
}

// Whether bus n has this response to an inverter at bus m, and the other way round.
fn respond(rt: &impl Abort, map: &Map, n: usize, m: usize, response: u32) {
    assert_eq!(rt; map.response(n, m), Some(response));
    assert_eq!(rt; map.response(m, n), Some(response));
}

// Bus 3 hangs on the substation, and buses 1 and 2 on bus 3.
fn fork() -> Result<Map, Fault> {
    Map::from_lines(2, &[line(3, 200), line(3, 500), line(0, 300)])
}

#[test]
fn lines_of_a_fork(rt: HostRuntime) -> Result<(), Fail> {
    let map = fork()?;
    assert_eq!(rt; map.buses(), 3);
    assert_eq!(rt; map.metered(), 2);
    assert_eq!(rt; map.parent(1), Some(3));
    assert_eq!(rt; map.parent(3), Some(0));
    assert_eq!(rt; map.parent(0), None);
    assert_eq!(rt; map.parent(4), None);
    assert_eq!(rt; map.resistance(2), Some(500));
    assert_eq!(rt; map.resistance(0), None);
    assert_eq!(rt; map.resistance(4), None);
    Ok(())
}

#[test]
fn distances_of_a_fork(rt: HostRuntime) -> Result<(), Fail> {
    let map = fork()?;
    assert_eq!(rt; map.distance(0), Some(0));
    assert_eq!(rt; map.distance(1), Some(500));
    assert_eq!(rt; map.distance(2), Some(800));
    assert_eq!(rt; map.distance(3), Some(300));
    assert_eq!(rt; map.distance(4), None);
    Ok(())
}

#[test]
fn responses_of_a_fork(rt: HostRuntime) -> Result<(), Fail> {
    let map = fork()?;
    respond(&rt, &map, 1, 2, 300);
    respond(&rt, &map, 2, 2, 800);
    respond(&rt, &map, 3, 1, 300);
    respond(&rt, &map, 0, 2, 0);
    assert_eq!(rt; map.response(1, 4), None);
    assert_eq!(rt; map.response(4, 1), None);
    Ok(())
}

#[test]
fn ends_of_a_fork(rt: HostRuntime) -> Result<(), Fail> {
    let map = fork()?;
    assert_eq!(rt; map.is_end(1), Some(true));
    assert_eq!(rt; map.is_end(2), Some(true));
    assert_eq!(rt; map.is_end(3), Some(false));
    assert_eq!(rt; map.is_end(0), None);
    assert_eq!(rt; map.is_end(4), None);
    Ok(())
}

// Buses 1 and 6 hang on the substation, 2 and 3 on bus 1, and 4 and 5 on bus 2.
fn tree() -> Result<Map, Fault> {
    Map::from_lines(
        6,
        &[
            line(0, 100),
            line(1, 50),
            line(1, 70),
            line(2, 10),
            line(2, 20),
            line(0, 30),
        ],
    )
}

#[test]
fn distances_of_a_tree(rt: HostRuntime) -> Result<(), Fail> {
    let map = tree()?;
    assert_eq!(rt; map.distance(1), Some(100));
    assert_eq!(rt; map.distance(2), Some(150));
    assert_eq!(rt; map.distance(3), Some(170));
    assert_eq!(rt; map.distance(4), Some(160));
    assert_eq!(rt; map.distance(5), Some(170));
    assert_eq!(rt; map.distance(6), Some(30));
    Ok(())
}

// Buses 3 and 5 are as far from the substation as each other, and part at bus 1.
#[test]
fn responses_of_a_tree(rt: HostRuntime) -> Result<(), Fail> {
    let map = tree()?;
    respond(&rt, &map, 4, 5, 150);
    respond(&rt, &map, 3, 5, 100);
    respond(&rt, &map, 4, 2, 150);
    respond(&rt, &map, 6, 4, 0);
    respond(&rt, &map, 5, 5, 170);
    Ok(())
}

// Every bus hangs on the substation, bus b with resistance 10 b.
#[test]
fn a_star_of_64(rt: HostRuntime) -> Result<(), Fail> {
    let lines: [Line; 64] = array::from_fn(|i| line(0, 10 * (i as u32 + 1)));
    let map = Map::from_lines(64, &lines)?;
    assert_eq!(rt; map.distance(64), Some(640));
    respond(&rt, &map, 64, 63, 0);
    respond(&rt, &map, 64, 64, 640);
    assert_eq!(rt; map.response(65, 64), None);
    assert_eq!(rt; map.is_end(64), Some(true));
    Ok(())
}

// Every bus hangs on the one before it, with resistance 10.
#[test]
fn a_chain_of_64(rt: HostRuntime) -> Result<(), Fail> {
    let lines: [Line; 64] = array::from_fn(|i| line(i, 10));
    let map = Map::from_lines(64, &lines)?;
    assert_eq!(rt; map.distance(64), Some(640));
    respond(&rt, &map, 64, 63, 630);
    respond(&rt, &map, 1, 64, 10);
    assert_eq!(rt; map.is_end(63), Some(false));
    assert_eq!(rt; map.is_end(64), Some(true));
    Ok(())
}

#[test]
fn loops(rt: HostRuntime) {
    refused(&rt, &[line(2, 5), line(1, 5)], Fault::Beyond(1));
    refused(&rt, &[line(0, 5), line(2, 5)], Fault::Beyond(2));
    refused(&rt, &[line(2, 1), line(3, 1), line(1, 1)], Fault::Beyond(1));
    refused(&rt, &[line(0, 1), line(3, 1), line(2, 1)], Fault::Beyond(2));
}

#[test]
fn the_farthest_bus(rt: HostRuntime) -> Result<(), Fail> {
    let map = Map::from_lines(0, &[line(0, 999_999), line(1, 1)])?;
    assert_eq!(rt; map.distance(2), Some(1_000_000));
    refused(&rt, &[line(0, 999_999), line(1, 2)], Fault::Beyond(2));
    refused(&rt, &[line(0, 1_000_001)], Fault::Beyond(1));
    Ok(())
}

#[test]
fn flaws(rt: HostRuntime) {
    refused(&rt, &[line(0, 5), line(3, 5)], Fault::Flawed(2));
    refused(&rt, &[line(0, 0), line(0, 0)], Fault::Flawed(1));
    // A flaw is told before a loop.
    refused(&rt, &[line(1, 5), line(0, 0)], Fault::Flawed(2));
}

#[test]
fn more_metered_buses_than_buses(rt: HostRuntime) -> Result<(), Fail> {
    assert_eq!(rt; Map::from_lines(1, &[line(0, 1)])?.metered(), 1);
    assert_eq!(rt;
        Map::from_lines(2, &[line(0, 1)]).err(),
        Some(Fault::Overmetered)
    );
    Ok(())
}

#[test]
fn at_most_127_buses(rt: HostRuntime) -> Result<(), Fail> {
    assert_eq!(rt; Map::from_lines(127, &[line(0, 1); 127])?.buses(), 127);
    refused(&rt, &[line(0, 1); 128], Fault::TooMany);
    Ok(())
}

#[test]
fn no_bus(rt: HostRuntime) -> Result<(), Fail> {
    let map = Map::new();
    assert_eq!(rt; map.buses(), 0);
    assert_eq!(rt; map.metered(), 0);
    assert_eq!(rt; map.distance(0), Some(0));
    assert_eq!(rt; map.distance(1), None);
    assert_eq!(rt; Map::from_lines(0, &[])?.buses(), 0);
    Ok(())
}
