// Words with codes that grow one by one.
ghost use Rattle.std.specs.Prelude.{◌≡◌, IfOk, OnErr};
ghost use Rattle.kq_value.specs.declared.ty.Ty.TheVariants as types;
ghost use Rattle.kq_store_column.specs.Forms.{cells_in};
ghost use Rattle.kq_store_column.specs.Growing.{begun, Takes};

use crate::dictionary::{Dictionary, FEW_WORDS, FEWEST_ROWS, code_of};
use crate::form::Form;
use crate::growing_cells::GrowingCells;
use crate::hint::Hint;
use kq_store_column_view::{Vector, copies};
use kq_value::{Memory, Ty, Value};
use std::alloc::Global;
use std::marker::Model;

// Strings as words and codes, as long as they repeat enough. Contracts see the type and the cells.
#[derive(Drop)]
pub(crate) struct GrowingWords {
    words: Vec<Value>,
    row_codes: Vec<u32>,
    hint: Hint,
}

impl Model for GrowingWords {
    ghost use Rattle.std.specs.Prelude.{◌<◌, All, map, length};
    ghost use Rattle.std.specs.Coded.{codes};
    ghost use Rattle.kq_value.specs.declared.ty.Ty.TheVariants as types;
    ghost use Rattle.kq_value.specs.contracts.value.Value as cell;
    ghost use Rattle.kq_store_column.specs.Growing.{Grown};
    ghost use Rattle.kq_store_column.specs.Words.{word_at};

    ghost Value = { Grown };

    ghost coded = { Prim.hlevel (codes, cell.the_row.coded) };

    ghost view = { λ g. record { ty = types.Text; cells = map (word_at g.words.items) g.row_codes.items } };

    ghost invariant = { λ g. All (λ code. code < length g.words.items) g.row_codes.items };
}

impl GrowingWords {
    pub fn new(alloc: Global) -> Result<GrowingWords, Memory>
        ensures { IfOk result (λ g. g ≡ begun types.Text) }
    {
        Ok(GrowingWords {
            words: Vec::new(alloc),
            row_codes: Vec::new(alloc),
            hint: Hint::new(alloc, FEW_WORDS)?,
        })
    }

    /// Puts a cell last. Where a dictionary doesn't pay any more it gives all cells with this one, which are to grow in its place.
    pub fn push(&mut self, cell: &Value) -> Result<Option<GrowingCells>, Memory>
        ensures ok { IfOk result (Takes self.old self.new cell.now) }
        ensures err { OnErr result (self.new ≡ self.old) }
    {
        let count = self.words.len();
        if count >= FEW_WORDS + self.row_codes.len() / 4 || count >= u32::MAX as usize {
            let mut cells = self.cells()?;
            cells.push(cell)?;
            return Ok(Some(cells));
        }
        self.hint.widen(self.words.as_slice())?;
        self.row_codes.reserve(1)?;
        let code = code_of(&mut self.words, &mut self.hint, cell)?;
        self.row_codes.push_reserved(code);
        Ok(None)
    }

    // Copies of the cells, which stand by themselves.
    fn cells(&self) -> Result<GrowingCells, Memory>
        ensures { IfOk result (λ g. g ≡ self.now) }
    {
        let alloc = *self.words.allocator();
        let cells = copies(alloc, &Vector::Words(&self.words, &self.row_codes))?;
        Ok(GrowingCells::from_vec(Ty::Text, cells))
    }

    /// A dictionary of all cells, or the cells by themselves where they are few.
    pub fn finish(self) -> Result<Form, Memory>
        ensures { IfOk result (λ form. cells_in form ≡ self.cells) }
    {
        if self.row_codes.len() < FEWEST_ROWS {
            return Ok(Form::Shared(self.cells()?.finish()));
        }
        Ok(Form::Dictionary(self.into_dictionary()))
    }

    fn into_dictionary(self) -> Dictionary
        ensures { result ≡ self.cells }
    {
        let GrowingWords {
            mut words,
            mut row_codes,
            hint: _,
        } = self;
        words.shrink_to_fit();
        row_codes.shrink_to_fit();
        Dictionary::from_parts(words, row_codes)
    }
}
