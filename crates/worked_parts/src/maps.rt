//! Whether maps are lists of ids, or those of another list.
use flux_model::{Map, Maps};

/// Whether the maps are these lists of ids.
pub fn are_maps(maps: &Maps, expected: &[&[u32]]) -> bool {
    if maps.len() != expected.len() {
        return false;
    }
    for i in 0..expected.len() {
        if !is_map(maps.get(i), expected[i]) {
            return false;
        }
    }
    true
}

/// Whether the map is this list of ids.
fn is_map(map: &Map, ids: &[u32]) -> bool {
    if map.len() != ids.len() {
        return false;
    }
    for u in 0..ids.len() {
        if map.get(u) != ids[u] {
            return false;
        }
    }
    true
}

/// Whether two lists have the same maps in the same order.
pub fn are_same(found: &Maps, expected: &Maps) -> bool {
    if found.len() != expected.len() {
        return false;
    }
    for i in 0..expected.len() {
        if found.get(i) != expected.get(i) {
            return false;
        }
    }
    true
}
