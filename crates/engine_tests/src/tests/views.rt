// What asking a view looks at.
use super::steps::{E, FOLD_V, VIEW, ran};
use kq_catalog_journal::Limits;
use kq_engine_query::view_rows_of;
use kq_plan::LeafKind;
use std::alloc::Global;
use std::test::Fail;

// An ingestion of so many records.
fn ingestion(alloc: Global, records: usize) -> Result<String, Fail> {
    let mut text = String::from_str(alloc, ".ingest inline into table E <|\n")?;
    for _ in 0..records {
        text.push_str("1\n")?;
    }
    Ok(text)
}

#[test]
fn of_a_view_only_the_records_since_its_fold_are_read(rt: HostRuntime) -> Result<(), Fail> {
    let alloc = rt.alloc();
    let first = ingestion(alloc, 1000)?;
    let later = ingestion(alloc, 3)?;
    let before = [E, VIEW, first.as_str(), FOLD_V, later.as_str()];
    let trace = ran(alloc, Limits::full(), &before, &[])?;
    let snapshot = trace.catalog.snapshot()?;
    assert!(rt; snapshot.view_count() == 1);
    let mut read = 0;
    let rows = match view_rows_of(&snapshot, 0, LeafKind::View, &mut read) {
        Ok(rows) => rows.len(),
        Err(_) => 0,
    };
    assert!(rt; rows == 1 && read == 3, "{rows} rows of {read} records");
    Ok(())
}
