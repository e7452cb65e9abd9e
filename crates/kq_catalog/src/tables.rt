// The tables by number and by name.
ghost use Rattle.std.specs.Prelude.{◌≡◌, ◌<◌, ◌≤◌, ◌++◌, ◌∷◌, [], IfOk, OnOk, Some, length, slice_get};
ghost use Rattle.std.specs.Arc.{arc_value};
ghost use Rattle.kq_catalog_journal.specs.Edits.{FitsTables, FitAll, changed};
ghost use Rattle.kq_catalog_journal.specs.Edits.Edit.{NewTable};
ghost use Rattle.kq_catalog.specs.Edits.{edit_of, edits_by, empty_table, with_extent, with_merged, put_in, put_all, wider_table};
ghost use Rattle.kq_catalog.specs.Held.{FindsTable, HeldTable as Held, tables_in};

use crate::edit::Change;
use crate::held::HeldTable;
use kq_catalog_indexes::Names;
use kq_catalog_journal::Table;
use kq_store_extent::Extent;
use kq_store_shared_lists::SharedList;
use kq_value::{Memory, Schema, Text};
use std::alloc::Global;
use std::marker::Model;
use std::sync::Arc;

// The tables in the order of their creation. Copies share them.
#[derive(Drop)]
pub(crate) struct Tables {
    held: SharedList<HeldTable>,
    names: Arc<Names, Global>,
}

impl Model for Tables {
    ghost use Rattle.std.specs.Prelude.{◌≡◌, List, map};
    ghost use Rattle.std.specs.Arc.{arc_value};
    ghost use Rattle.std.specs.Coded.{codes};
    ghost use Rattle.kq_value.specs.contracts.value.Value as cell;
    ghost use Rattle.kq_catalog.specs.Held.{HeldTable as Seen};

    ghost Value = { List Seen };

    ghost coded = { Prim.hlevel (codes, cell.the_row.coded) };

    ghost view = { λ t. t.held };

    // the names are the tables'
    ghost invariant = { λ t. arc_value t.names ≡ map (λ (h : Seen). h.table.name) t.held };
}

impl Tables {
    pub(crate) fn new(alloc: Global) -> Result<Tables, Memory>
        ensures { IfOk result (λ tables. tables ≡ []) }
    {
        Ok(Tables {
            held: SharedList::new(alloc),
            names: Arc::new(alloc, Names::new(alloc))?,
        })
    }

    pub(crate) fn len(&self) -> usize
        ensures { result ≡ length self.now }
    {
        self.held.len()
    }

    // The table of a number.
    pub(crate) fn get(&self, number: u32) -> &HeldTable
        requires { number < length self.now }
        ensures { slice_get self.now number ≡ Some result.now }
    {
        self.held.get(number as usize)
    }

    // The table of a name, with its number.
    pub(crate) fn find(&self, name: &Text) -> Option<(u32, &Table)>
        ensures { FindsTable name.now (tables_in self.now) result }
    {
        match self.names.find(name) {
            Some(number) => Some((number, self.held.get(number as usize).table())),
            None => None,
        }
    }

    fn put_table(&mut self, alloc: Global, table: Arc<Table, Global>) -> Result<(), Memory>
        requires { FitsTables (tables_in self.old) (NewTable (arc_value table)) }
        ensures { OnOk result (self.new ≡ self.old ++ empty_table (arc_value table) ∷ []) }
    {
        let names = Arc::new(alloc, self.names.with(&table.name)?)?;
        let held = Arc::new(alloc, HeldTable::new(alloc, table))?;
        self.held.push(held)?;
        self.names = names;
        Ok(())
    }

    fn put_columns(
        &mut self,
        alloc: Global,
        table: u32,
        cursor: u64,
        columns: Schema,
    ) -> Result<(), Memory>
        requires { table < length self.old }
        ensures { OnOk result (self.new ≡ changed (wider_table cursor columns) table self.old) }
    {
        let number = table as usize;
        let held = self.held.get(number).with_columns(alloc, cursor, columns)?;
        self.held.set(number, Arc::new(alloc, held)?)?;
        Ok(())
    }

    fn put_extent(
        &mut self,
        alloc: Global,
        table: u32,
        extent: Arc<Extent, Global>,
    ) -> Result<(), Memory>
        requires { table < length self.old }
        ensures { OnOk result (self.new ≡ changed (with_extent (arc_value extent)) table self.old) }
    {
        let number = table as usize;
        let held = self.held.get(number).with_extent(extent)?;
        self.held.set(number, Arc::new(alloc, held)?)?;
        Ok(())
    }

    fn put_merged(
        &mut self,
        alloc: Global,
        table: u32,
        count: usize,
        extent: Arc<Extent, Global>,
    ) -> Result<(), Memory>
        requires stands { table < length self.old }
        requires some { (h : Held) → slice_get self.old table ≡ Some h → count ≤ length h.extents.small }
        ensures { OnOk result (self.new ≡ changed (with_merged count (arc_value extent)) table self.old) }
    {
        let number = table as usize;
        let held = self.held.get(number).with_merged(count, extent)?;
        self.held.set(number, Arc::new(alloc, held)?)?;
        Ok(())
    }

    // The tables after so many of the first small extents of one became another.
    pub(crate) fn with_merged(
        &self,
        alloc: Global,
        table: u32,
        count: usize,
        extent: Arc<Extent, Global>,
    ) -> Result<Tables, Memory>
        requires stands { table < length self.now }
        requires some { (h : Held) → slice_get self.now table ≡ Some h → count ≤ length h.extents.small }
        ensures { IfOk result (λ tables. tables ≡ changed (with_merged count (arc_value extent)) table self.now) }
    {
        let mut tables = self.share()?;
        tables.put_merged(alloc, table, count, extent)?;
        Ok(tables)
    }

    // Makes one change.
    pub(crate) fn put(&mut self, alloc: Global, change: Change) -> Result<(), Memory>
        requires { FitsTables (tables_in self.old) (edit_of change) }
        ensures { OnOk result (self.new ≡ put_in self.old change) }
    {
        match change {
            Change::PutTable(table) => self.put_table(alloc, table),
            Change::PutColumns {
                table,
                cursor,
                columns,
            } => self.put_columns(alloc, table, cursor, columns),
            Change::PutExtent { table, extent } => self.put_extent(alloc, table, extent),
        }
    }

    // The tables after some changes.
    pub(crate) fn with_all(&self, alloc: Global, changes: Vec<Change>) -> Result<Tables, Memory>
        requires { FitAll (tables_in self.now) (edits_by changes.items) }
        ensures { IfOk result (λ tables. tables ≡ put_all self.now changes.items) }
    {
        let mut tables = self.share()?;
        for change in changes {
            tables.put(alloc, change)?;
        }
        Ok(tables)
    }

    pub(crate) fn share(&self) -> Result<Tables, Memory>
        ensures { IfOk result (λ tables. tables ≡ self.now) }
    {
        let held = self.held.share()?;
        let names = Arc::try_clone(&self.names)?;
        Ok(Tables { held, names })
    }
}
