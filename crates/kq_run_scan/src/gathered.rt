// Rows side by side.
ghost use Rattle.std.specs.Prelude.{◌≡◌};
ghost use Rattle.kq_run_scan.specs.Gathered.{gathered};

use kq_store_rows::Rows;

/// Rows side by side: those of a `Held` itself, or copies of lent ones.
#[derive(Drop)]
pub enum Gathered<'a> {
    Own(&'a Rows),
    Copied(Rows),
}

impl Gathered<'_> {
    pub fn rows(&self) -> &Rows
        ensures { result.now ≡ gathered self.now }
    {
        match self {
            Gathered::Own(rows) => rows,
            Gathered::Copied(rows) => rows,
        }
    }
}
