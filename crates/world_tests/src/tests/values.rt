// How hashes spread, how large a value is, and calls that the program doesn't make.
use kq_value::{Bytes, LAST_MOMENT, Memory, RecordId, Row, Text, Ty, Value};
use std::alloc::Global;
use std::mem::size_of;
use std::process::Abort;
use std::test::Fail;

fn assert_spread(rt: &impl Abort, counts: &[u32; 64], what: &str) {
    for count in counts {
        assert!(rt; *count < 2031, "{what}: {count} of 100000 in one of 64");
    }
}

#[test]
fn hashes_of_longs_spread_over_shards(rt: HostRuntime) {
    for step in [1, 64, 600_000_000, 1 << 40] {
        let mut counts = [0_u32; 64];
        for number in 0..100_000_i64 {
            let value = Value::Long(number.wrapping_mul(step));
            let shard = (value.hash64() % 64) as usize;
            counts[shard] = counts[shard].saturating_add(1);
        }
        assert_spread(&rt, &counts, "longs");
    }
}

#[test]
fn hashes_of_texts_spread_over_shards(rt: HostRuntime) -> Result<(), Fail> {
    let alloc = rt.alloc();
    let mut counts = [0_u32; 64];
    for number in 0..100_000 {
        let text = format!(in alloc; "{number}")?;
        let value = Value::Text(Text::from_string(alloc, text)?);
        let shard = (value.hash64() % 64) as usize;
        counts[shard] = counts[shard].saturating_add(1);
    }
    assert_spread(&rt, &counts, "texts");
    Ok(())
}

fn text(alloc: Global, text: &str) -> Result<Value, Memory> {
    Ok(Value::Text(Text::from_str(alloc, text)?))
}

fn row(alloc: Global) -> Result<Row, Memory> {
    let mut row = Row::new(alloc);
    row.push(Value::Long(7))?;
    row.push(text(alloc, "seven")?)?;
    row.push(Value::Null(Ty::Bool))?;
    Ok(row)
}

#[test]
fn a_row_is_as_its_copy(rt: HostRuntime) -> Result<(), Fail> {
    let row = row(rt.alloc())?;
    let copy = row.clone_in()?;
    assert!(rt; row.same(&copy));
    assert_eq!(rt; row.hash64(), copy.hash64());
    Ok(())
}

fn bytes(alloc: Global) -> Result<Bytes, Memory> {
    let mut bytes = Bytes::new(alloc);
    bytes.push(1)?;
    bytes.extend(b"23")?;
    Ok(bytes)
}

#[test]
fn bytes_are_copied(rt: HostRuntime) -> Result<(), Fail> {
    let bytes = bytes(rt.alloc())?;
    let copy = bytes.clone_in()?;
    assert_eq!(rt; copy.as_slice(), [1, 50, 51].as_slice());
    assert!(rt; Bytes::new(bytes.allocator()).is_empty());
    Ok(())
}

#[test]
fn records_are_told_apart_by_both_numbers(rt: HostRuntime) {
    let first = RecordId {
        cursor: 3,
        ordinal: 0,
    };
    assert!(rt; first.same(first));
    assert!(rt;
        !first.same(RecordId {
            ordinal: 1,
            ..first
        })
    );
    assert!(rt; !first.same(RecordId { cursor: 4, ..first }));
}

#[test]
fn types_have_their_values(rt: HostRuntime) {
    assert!(rt; Value::Null(Ty::Span).has_type(Ty::Span));
    assert!(rt; !Value::Null(Ty::Span).has_type(Ty::Long));
    assert!(rt; !Value::Null(Ty::Text).has_type(Ty::Text));
    assert!(rt; !Value::Null(Ty::Dynamic).has_type(Ty::Dynamic));
    assert!(rt; Value::Moment(LAST_MOMENT).has_type(Ty::Moment));
    assert!(rt; !Value::Moment(LAST_MOMENT + 1).has_type(Ty::Moment));
    assert!(rt; !Value::Moment(-1).has_type(Ty::Moment));
}

#[test]
fn values_are_small(rt: HostRuntime) {
    assert!(rt; size_of::<Value>() <= 16);
}
