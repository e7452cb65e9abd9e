// The limits of a catalogue.
ghost use Rattle.std.specs.Prelude.{◌≤◌, ◌^◌, ◌-◌};

/// What a catalogue may hold. No field is above the number that the program uses.
#[derive(Clone, Copy)]
pub struct Limits {
    /// Tables.
    pub tables: u64,
    /// Columns of one table.
    pub columns: u64,
    /// Materialized views.
    pub views: u64,
    /// Entries of one table's update policy.
    pub policies: u64,
    /// Rows of an ingestion's own batch.
    pub batch: u64,
    /// Policy queries run in one ingestion.
    pub cascade: u64,
    /// Client commits.
    pub commits: u64,
    ghost few_tables: { tables ≤ 1000 },
    ghost few_columns: { columns ≤ 256 },
    ghost few_views: { views ≤ 256 },
    ghost few_policies: { policies ≤ 16 },
    ghost small_batch: { batch ≤ 2 ^ 20 },
    ghost short_cascade: { cascade ≤ 1024 },
    ghost few_commits: { commits ≤ 2 ^ 32 - 1 },
}

impl Limits {
    ghost use Rattle.kq_catalog_journal.specs.Limits.{AreFull};

    /// The limits of the program.
    pub fn full() -> Limits
        ensures { AreFull result }
    {
        Limits {
            tables: 1000,
            columns: 256,
            views: 256,
            policies: 16,
            batch: 1048576,
            cascade: 1024,
            commits: 4294967295,
        }
    }
}
