// The text of the script.
ghost use Rattle.std.specs.Prelude.{◌≡◌, ◌-◌, ◌++◌, IfOk, OnOk, codes, decimal};
ghost use Rattle.kq_script_generated.specs.Commands.{batch_commands, batches, commands_from, each_behind, ingestion, row_text, rows_from, script, upkeep};

use itoa::Buffer;
use kq_value::{Bytes, Memory};
use std::alloc::Global;

const ROWS_PER_BATCH: u32 = 1000;

const BATCHES_PER_FOLD: u32 = 10;

const KEYS: u32 = 10;

/// The script that puts `n` rows into a table `G` and asks for their count and for the totals of a view `GV` over it.
///
/// Its commands have one empty line between them, and an LF stands at the end. Row i, from 0 to `n` - 1, is `K,I` with I = i
/// and K = i mod 10. The rows go in by batches of 1000, the last one shorter; behind every tenth batch come `#fold GV` and
/// `#merge G`. Without rows there is no batch. Of 2 rows the script is
///
/// ```text
/// .create table G (k:long, v:long)
///
/// .create materialized-view GV on table G { G | summarize n = count(), s = sum(v), m = max(v) by k }
///
/// .ingest inline into table G <|
/// 0,0
/// 1,1
///
/// G | count
///
/// GV | summarize total = sum(s), groups = count()
/// ```
pub fn script_of(alloc: Global, n: u32) -> Result<Bytes, Memory>
    ensures { IfOk result (λ text. text ≡ script n) }
{
    let mut text = Bytes::new(alloc);
    text.extend(b".create table G (k:long, v:long)")?;
    put_command(
        &mut text,
        b".create materialized-view GV on table G { G | summarize n = count(), s = sum(v), m = max(v) by k }",
    )?;
    put_batches(&mut text, n)?;
    put_command(&mut text, b"G | count")?;
    put_command(
        &mut text,
        b"GV | summarize total = sum(s), groups = count()",
    )?;
    text.push(b'\n')?;
    Ok(text)
}

// A command, behind others.
fn put_command(text: &mut Bytes, command: &[u8]) -> Result<(), Memory>
    ensures { OnOk result (text.new ≡ text.old ++ codes "\n\n" ++ command.now) }
{
    text.extend(b"\n\n")?;
    text.extend(command)
}

fn put_batches(text: &mut Bytes, n: u32) -> Result<(), Memory>
    ensures { OnOk result (text.new ≡ text.old ++ each_behind (codes "\n\n") (commands_from 1 (batches (rows_from 0 n)))) }
{
    for batch in 0..n.div_ceil(ROWS_PER_BATCH) {
        let first = batch * ROWS_PER_BATCH;
        let rows = ROWS_PER_BATCH.min(n - first);
        put_batch(text, batch + 1, first, first + rows)?;
    }
    Ok(())
}

// The batch of this number, with what comes behind it.
fn put_batch(text: &mut Bytes, number: u32, first: u32, end: u32) -> Result<(), Memory>
    ensures { OnOk result (text.new ≡ text.old ++ each_behind (codes "\n\n") (batch_commands (number, rows_from first (end - first)))) }
{
    put_ingestion(text, first, end)?;
    if number % BATCHES_PER_FOLD == 0 {
        put_upkeep(text)?;
    }
    Ok(())
}

fn put_upkeep(text: &mut Bytes) -> Result<(), Memory>
    ensures { OnOk result (text.new ≡ text.old ++ each_behind (codes "\n\n") upkeep) }
{
    put_command(text, b"#fold GV")?;
    put_command(text, b"#merge G")
}

fn put_ingestion(text: &mut Bytes, first: u32, end: u32) -> Result<(), Memory>
    ensures { OnOk result (text.new ≡ text.old ++ codes "\n\n" ++ ingestion (rows_from first (end - first))) }
{
    put_command(text, b".ingest inline into table G <|")?;
    put_rows(text, first, end)
}

fn put_rows(text: &mut Bytes, first: u32, end: u32) -> Result<(), Memory>
    ensures { OnOk result (text.new ≡ text.old ++ each_behind (codes "\n") (rows_from first (end - first))) }
{
    for i in first..end {
        text.push(b'\n')?;
        put_row(text, i)?;
    }
    Ok(())
}

fn put_row(text: &mut Bytes, i: u32) -> Result<(), Memory>
    ensures { OnOk result (text.new ≡ text.old ++ row_text i) }
{
    put_number(text, i % KEYS)?;
    text.push(b',')?;
    put_number(text, i)
}

fn put_number(text: &mut Bytes, number: u32) -> Result<(), Memory>
    ensures { OnOk result (text.new ≡ text.old ++ decimal number) }
{
    let mut digits = Buffer::new();
    text.extend(digits.format(number).as_bytes())
}
