//! Maps and deltas, made, sorted and compared with lists by hand.
use flux_model::{Delta, Deltas, Map, Maps};
use std::alloc::{AllocError, Global};
use std::process::Abort;
use std::test::Fail;
use worked_parts::are_maps;

fn map_of(alloc: Global, ids: &[u32]) -> Result<Map, AllocError> {
    let mut map = Map::new(alloc);
    for id in ids {
        map.add(*id)?;
    }
    Ok(map)
}

fn maps_of(alloc: Global, lists: &[&[u32]]) -> Result<Maps, AllocError> {
    let mut maps = Maps::new(alloc);
    for ids in lists {
        maps.add(map_of(alloc, ids)?)?;
    }
    Ok(maps)
}

fn add_delta(
    rt: &impl Abort,
    deltas: &mut Deltas,
    gained: Maps,
    lost: Maps,
) -> Result<(), AllocError> {
    assert!(rt; deltas.len() == 0);
    assert!(rt; 0 < gained.len());
    deltas.add(Delta {
        pattern: 3,
        gained,
        lost,
    })
}

#[test]
fn ids_make_maps(rt: HostRuntime) -> Result<(), Fail> {
    let mut maps = Maps::new(rt.alloc());
    maps.add_ids(&[3, 1])?;
    maps.add(Map::from_ids(rt.alloc(), &[4294967295])?)?;
    assert!(rt; are_maps(&maps, &[&[3, 1], &[4294967295]]));
    Ok(())
}

#[test]
fn maps_are_sorted(rt: HostRuntime) -> Result<(), Fail> {
    let mut maps = maps_of(rt.alloc(), &[&[2], &[1, 9, 0], &[1, 9], &[1, 9]])?;
    assert!(rt; are_maps(&maps, &[&[2], &[1, 9, 0], &[1, 9], &[1, 9]]));
    maps.sort()?;
    assert!(rt; are_maps(&maps, &[&[1, 9], &[1, 9], &[1, 9, 0], &[2]]));
    Ok(())
}

#[test]
fn deltas_are_sorted(rt: HostRuntime) -> Result<(), Fail> {
    let mut deltas = Deltas::new(rt.alloc());
    let gained = maps_of(rt.alloc(), &[&[10, 1], &[9, 2]])?;
    let lost = maps_of(rt.alloc(), &[&[5], &[4]])?;
    add_delta(&rt, &mut deltas, gained, lost)?;
    deltas.sort()?;
    assert_eq!(rt; deltas.len(), 1);
    let delta = deltas.get(0);
    assert_eq!(rt; delta.pattern, 3);
    assert!(rt; are_maps(&delta.gained, &[&[9, 2], &[10, 1]]));
    assert!(rt; are_maps(&delta.lost, &[&[4], &[5]]));
    Ok(())
}

#[test]
fn a_delta_without_a_map_is_left_out(rt: HostRuntime) -> Result<(), Fail> {
    let alloc = rt.alloc();
    let mut deltas = Deltas::new(alloc);
    let empty = Delta {
        pattern: 0,
        gained: Maps::new(alloc),
        lost: Maps::new(alloc),
    };
    assert!(rt; !empty.has_map());
    deltas.add_unless_empty(empty)?;
    assert!(rt; deltas.len() == 0);
    let lost = Delta {
        pattern: 1,
        gained: Maps::new(alloc),
        lost: maps_of(alloc, &[&[4]])?,
    };
    assert!(rt; lost.has_map());
    deltas.add_unless_empty(lost)?;
    assert_eq!(rt; deltas.len(), 1);
    assert_eq!(rt; deltas.get(0).pattern, 1);
    assert!(rt; are_maps(&deltas.get(0).lost, &[&[4]]));
    Ok(())
}
