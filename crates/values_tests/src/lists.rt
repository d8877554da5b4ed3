//! Lists with a limit, and bytes.

use crate::samples::{category, link, person};
use atom_values::{
    Bytes, Category, Link, ListFault, MAX_CATEGORIES, MAX_LINKS, MAX_PERSONS, Many, Person,
};

/// Numbers, and the results of their pushes.
static PUSHES: [(u32, Result<(), ListFault>); 3] = [
    (7, Ok(())),
    (8, Ok(())),
    (9, Err(ListFault::TooMany { count: 2 })),
];

#[test]
fn holds_at_most_its_limit(rt: HostRuntime) {
    let mut numbers: Many<u32, 2> = Many::new(rt.alloc());
    assert!(rt; numbers.reserve(1) == Ok(()));
    for &(number, answer) in &PUSHES {
        assert!(rt; numbers.push(number) == answer);
    }
    assert!(rt; numbers.as_slice() == [7, 8].as_slice());
    assert!(rt; numbers.len() == 2);
    for (at, number) in [(0, Some(&7)), (1, Some(&8)), (2, None)] {
        assert!(rt; numbers.get(at) == number);
    }
    drop(numbers);
}

#[test]
fn bounds_the_persons_of_an_entry(rt: HostRuntime) {
    let mut persons: Many<Person, MAX_PERSONS> = Many::new(rt.alloc());
    for _ in 0..16 {
        assert!(rt; persons.push(person(&rt, rt.alloc())) == Ok(()));
    }
    let refused = persons.push(person(&rt, rt.alloc()));
    assert!(rt; refused == Err(ListFault::TooMany { count: 16 }));
    drop(persons);
}

#[test]
fn bounds_the_links_of_an_entry(rt: HostRuntime) {
    let mut links: Many<Link, MAX_LINKS> = Many::new(rt.alloc());
    for _ in 0..32 {
        assert!(rt; links.push(link(&rt, rt.alloc(), b"via")) == Ok(()));
    }
    let refused = links.push(link(&rt, rt.alloc(), b"via"));
    assert!(rt; refused == Err(ListFault::TooMany { count: 32 }));
    drop(links);
}

#[test]
fn bounds_the_categories_of_an_entry(rt: HostRuntime) {
    let mut categories: Many<Category, MAX_CATEGORIES> = Many::new(rt.alloc());
    for _ in 0..64 {
        assert!(rt; categories.push(category(&rt, rt.alloc())) == Ok(()));
    }
    let refused = categories.push(category(&rt, rt.alloc()));
    assert!(rt; refused == Err(ListFault::TooMany { count: 64 }));
    drop(categories);
}

#[test]
fn keeps_bytes(rt: HostRuntime) {
    let bytes = Bytes::of(rt.alloc(), b"a\x00\xff").expect(&rt, "bytes");
    assert!(rt; bytes.slice() == b"a\x00\xff".as_slice());
    let copy = Vec::from_slice(rt.alloc(), bytes.slice()).expect(&rt, "memory");
    let copy = Bytes::from_vec(copy);
    assert!(rt; copy == bytes);
    drop((bytes, copy));
}
