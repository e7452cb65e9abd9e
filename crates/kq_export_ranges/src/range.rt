// Ranges of cursors.

/// The records of an export's table with a cursor above the one and not above the other. An export goes by its number,
/// from 0, in the order in which exports were defined.
#[derive(Clone, Copy)]
pub struct ExportRange {
    pub export: usize,
    pub above: u64,
    pub to: u64,
}
