// Lines in one buffer.
ghost use Rattle.std.specs.Prelude.{◌≡◌, ◌≤◌, ◌++◌, IfOk, OnOk, false, length, map, sum};
ghost use Rattle.std.specs.List.{flat_map};
ghost use Rattle.kq_reply.specs.Lines.{AreArranged, ended, pieces};

use kq_value::{Bytes, Memory};
use std::alloc::Global;

/// Lines one behind another, and the size of each.
#[derive(Drop)]
pub struct Lines {
    pub bytes: Bytes,
    pub sizes: Vec<usize>,
}

// The pieces of these sizes, lent.
fn cut<'a>(alloc: Global, bytes: &'a [u8], sizes: &[usize]) -> Result<Vec<&'a [u8]>, Memory>
    requires { sum sizes.now ≤ length bytes.now }
    ensures { IfOk result (λ lines. map (λ line. line.now) lines.items ≡ pieces sizes.now bytes.now) }
{
    let mut lines = Vec::with_capacity(alloc, sizes.len())?;
    let mut rest = bytes;
    for size in sizes {
        let (line, behind) = rest.split_at(*size);
        lines.push(line)?;
        rest = behind;
    }
    Ok(lines)
}

/// The pieces of these sizes, lent, in byte order.
pub fn sorted<'a>(alloc: Global, bytes: &'a [u8], sizes: &[usize]) -> Result<Vec<&'a [u8]>, Memory>
    requires { sum sizes.now ≤ length bytes.now }
    ensures { IfOk result (λ lines. AreArranged false (pieces sizes.now bytes.now) (map (λ line. line.now) lines.items)) }
{
    let mut lines = cut(alloc, bytes, sizes)?;
    lines.sort_unstable();
    Ok(lines)
}

/// Puts a line and its LF behind a text.
pub fn put_line(text: &mut Bytes, line: &[u8]) -> Result<(), Memory>
    ensures { OnOk result (text.new ≡ text.old ++ ended line.now) }
{
    text.extend(line)?;
    text.push(b'\n')
}

/// Puts lines behind a text, an LF at the end of each.
pub fn put_lines(text: &mut Bytes, lines: &[&[u8]]) -> Result<(), Memory>
    ensures { OnOk result (text.new ≡ text.old ++ flat_map ended (map (λ line. line.now) lines.now)) }
{
    for line in lines {
        put_line(text, line)?;
    }
    Ok(())
}
