//! Calls of the types with ample memory.
use flux_model::{Code, Labels, Limits, Partial, Text, place};
use std::alloc::{AllocError, Global};
use std::cmp::Ordering;
use std::test::Fail;
use worked_parts::{Unmade, are_labels, text_of, triple_of};

/// Two words, of which the first is the lower text.
type Ascending = (&'static str, &'static str);

const ASCENDING: [Ascending; 3] = [
    ("know", "knows"),
    ("Z", "a"),
    ("is_located_in_the_city", "j"),
];

/// Whether the text and its copy are this word.
fn is_word(text: &Text, word: &str) -> Result<bool, AllocError> {
    let copy = text.copy()?;
    Ok(text.bytes() == word.as_bytes() && copy.bytes() == word.as_bytes())
}

/// Whether the first text is the lower one.
fn is_below(low: &Text, high: &Text) -> bool {
    low.cmp(high) == Ordering::Less
        && high.cmp(low) == Ordering::Greater
        && low.cmp(low) == Ordering::Equal
}

/// Whether the two texts of a row are as they should be.
fn are_ascending(alloc: Global, row: &Ascending) -> Result<bool, Unmade> {
    let low = text_of(alloc, row.0)?;
    let high = text_of(alloc, row.1)?;
    Ok(is_word(&low, row.0)? && is_word(&high, row.1)? && is_below(&low, &high))
}

/// How many rows, from the first on, are as they should be.
fn count_ascending(alloc: Global, rows: &[Ascending]) -> Result<usize, Unmade> {
    for i in 0..rows.len() {
        if !are_ascending(alloc, &rows[i])? {
            return Ok(i);
        }
    }
    Ok(rows.len())
}

#[test]
fn texts_are_ordered_by_bytes(rt: HostRuntime) -> Result<(), Fail> {
    assert_eq!(rt; count_ascending(rt.alloc(), &ASCENDING)?, ASCENDING.len());
    Ok(())
}

/// Whether the copy of a triple has its parts.
fn is_copied(alloc: Global) -> Result<bool, Unmade> {
    let copy = triple_of(alloc, (7, "knows", 4294967295))?.copy()?;
    Ok(copy.src == 7 && copy.label.bytes() == b"knows".as_slice() && copy.dst == 4294967295)
}

#[test]
fn a_triple_and_its_copy(rt: HostRuntime) -> Result<(), Fail> {
    assert!(rt; is_copied(rt.alloc())?);
    Ok(())
}

/// Adds each name. `Unmade` where there are 16 labels.
fn add_each(alloc: Global, labels: &mut Labels, names: &[&str]) -> Result<(), Unmade> {
    for i in 0..names.len() {
        if labels.len() >= 16 {
            return Err(Unmade::Refused(Code::Arity));
        }
        labels.add(text_of(alloc, names[i])?)?;
    }
    Ok(())
}

/// Whether labels are kept once and in order, also by a copy that gets one more.
fn are_kept(alloc: Global) -> Result<bool, Unmade> {
    let mut labels = Labels::new(alloc);
    add_each(alloc, &mut labels, &["city", "b", "city", "a", "b"])?;
    let mut more = labels.copy()?;
    add_each(alloc, &mut more, &["aa"])?;
    Ok(
        are_labels(&labels, &["a", "b", "city"])
            && are_labels(&more, &["a", "aa", "b", "city"])
            && labels.within(&more)
            && !more.within(&labels),
    )
}

#[test]
fn labels_are_kept_once_and_in_order(rt: HostRuntime) -> Result<(), Fail> {
    assert!(rt; are_kept(rt.alloc())?);
    Ok(())
}

/// A number, and where it stands or would stand among 2, 4 and 6.
const PLACES: [(u32, Result<usize, usize>); 5] = [
    (1, Err(0)),
    (2, Ok(0)),
    (3, Err(1)),
    (6, Ok(2)),
    (7, Err(3)),
];

/// How many places, from the first on, are as they should be.
fn count_places(rows: &[(u32, Result<usize, usize>)]) -> usize {
    for i in 0..rows.len() {
        let (x, answer) = rows[i];
        if place(&[2, 4, 6], &x) != answer {
            return i;
        }
    }
    rows.len()
}

#[test]
fn places_in_an_ascending_list(rt: HostRuntime) {
    assert_eq!(rt; count_places(&PLACES), PLACES.len());
}

/// Whether the ids are these.
fn has_ids(partial: &Partial, first: Option<u32>, second: Option<u32>) -> bool {
    partial.len() == 2 && partial.get(0) == first && partial.get(1) == second
}

#[test]
fn ids_come_and_go(rt: HostRuntime) {
    let mut partial = Partial::new(2);
    partial.put(0, 7);
    partial.put(1, 4294967295);
    assert!(rt; has_ids(&partial, Some(7), Some(4294967295)));
    partial.clear(0);
    assert!(rt; has_ids(&partial, None, Some(4294967295)));
}

/// How many patterns and edges of one there may be, and whether limits that are standard but for these are fair.
type Limit = (u64, u64, bool);

const LIMITS: [Limit; 3] = [(256, 64, true), (0, 64, false), (256, 65, false)];

/// How many limits, from the first on, are told as they should be.
fn count_fair_so(rows: &[Limit]) -> usize {
    for i in 0..rows.len() {
        let (patterns, pattern_edges, is_fair) = rows[i];
        let limits = Limits {
            patterns,
            pattern_edges,
            ..Limits::standard()
        };
        if limits.fair() != is_fair {
            return i;
        }
    }
    rows.len()
}

#[test]
fn limits_are_between_one_and_the_standard(rt: HostRuntime) {
    assert_eq!(rt; count_fair_so(&LIMITS), LIMITS.len());
}

/// A code, its number and its word.
const CODES: [(Code, u8, &str); 2] = [(Code::Long, 1, "long"), (Code::Apart, 15, "apart")];

/// How many codes, from the first on, have the number and the word that they should.
fn count_named(rows: &[(Code, u8, &str)]) -> usize {
    for i in 0..rows.len() {
        let (code, number, word) = rows[i];
        if code.number() != number || code.word() != word {
            return i;
        }
    }
    rows.len()
}

#[test]
fn codes_have_numbers_and_words(rt: HostRuntime) {
    assert_eq!(rt; count_named(&CODES), CODES.len());
}
