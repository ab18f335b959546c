use mea_once_core::OnceTable;
use mea_test_support::Collides;
use std::process::Abort;

type Table = OnceTable<u64, u64, Collides, u64>;

fn entered(table: &mut Table, key: u64, value: u64) -> bool {
    table.insert(key, value).is_ok()
}

fn number_of(table: &Table, key: u64) -> Option<usize> {
    table.get(&key)
}

// How many calls an entry has, and its value, where it is in use.
fn entry(table: &Table, number: usize) -> Option<(usize, Option<u64>)> {
    if !table.is_in_use(number) {
        return None;
    }
    Some((table.callers(number), table.cell(number).get().copied()))
}

fn taken(table: &mut Table, number: usize) -> Option<u64> {
    if !table.is_in_use(number) {
        return None;
    }
    table.cell_mut(number).take_checked()
}

fn is_full(table: &Table, number: usize) -> Option<bool> {
    if !table.is_in_use(number) {
        return None;
    }
    Some(table.cell(number).is_full())
}

// A table gives a key's value a new entry each time, whose cell may be changed in place.
#[test]
fn a_table_has_values(rt: HostRuntime) {
    let table = OnceTable::with_capacity_and_hasher(rt.alloc(), 2, Collides);
    let mut table: Table = table.expect(&rt, "memory");
    assert!(rt; table.get_or_insert(6).is_ok());
    has_values(&rt, &mut table);
}

fn has_values(rt: &impl Abort, table: &mut Table) {
    assert!(rt; entered(table, 5, 50));
    let first = number_of(table, 5);
    assert!(rt; entered(table, 5, 51));
    let number = number_of(table, 5).expect(rt, "the key has an entry");
    assert!(rt; first != Some(number));
    assert!(rt; entry(table, number) == Some((0, Some(51))));
    assert!(rt; taken(table, number) == Some(51));
    assert!(rt; is_full(table, number) == Some(false));
}
