// Steps between which a table gets further columns.
use super::steps::{E, printed, ran, tells};
use kq_catalog_journal::Limits;
use std::test::Fail;

#[test]
fn rows_read_before_a_table_got_columns_are_widened(rt: HostRuntime) -> Result<(), Fail> {
    let rows = [
        (1, ".ingest inline into table E <|\n1"),
        (2, ".alter-merge table E (k:long, s:string, v:long)"),
        (2, ""),
        (1, ""),
        (3, "E"),
        (3, ""),
    ];
    let widened = b"rows 1\nk:long\ts:string\tv:long\n1\t\tnull\n";
    let expected = [
        (0, b'd', 1),
        (2, b'd', 2),
        (1, b'i', 3),
        (3, b'r', widened.len() as u64),
    ];
    let trace = ran(rt.alloc(), Limits::full(), &[E], &rows)?;
    assert!(rt; tells(&trace, &expected) && printed(&trace, 3) == Some((3, widened.as_slice())));
    Ok(())
}
