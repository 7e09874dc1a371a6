// The cells that stay, copied one behind the other.
ghost use Rattle.std.specs.Prelude.{◌≡◌, suc, ◌+◌, ◌*◌, ◌^◌, ◌≤◌, ◌<◌, length};
ghost use Rattle.lists.specs.Splice.{splice};
ghost use Rattle.complexes.specs.Complex.{section};
ghost use Rattle.sheet_format.specs.Layout.{top, header_length, cell_bytes, section_bytes, sections_bytes};
ghost use Rattle.sheet_format.specs.Check.{count_field, cell_of};
ghost use Rattle.closures.specs.Keep.{cells_below};
ghost use Rattle.cell_keeper.specs.Unmarked.{if_stays, unmarked_cells, Puts};

use crate::count::SECTIONS;
use fields::field::{HEADER_LENGTH, count, field, start};
use sheet_writer::write::write_field;

// Copies the cell of n vertices at byte `at` of s to byte `to` of the sheet.
fn copy_cell(s: &[u8], at: usize, n: usize, sheet: &mut [u8], to: usize)
    requires { (at < 2 ^ 32) × (n ≤ suc top) × (to + 2 * n ≤ length sheet.old) }
    ensures { sheet.new ≡ splice to (cell_bytes (cell_of s.now n at)) sheet.old }
{
    for j in 0..n {
        let v = field(s, at + 2 * j);
        write_field(v, sheet, to + 2 * j);
    }
}

// Copies the cell unless its mark is 1, and tells where the next one goes.
fn keep_cell(s: &[u8], at: usize, n: usize, mark: u8, sheet: &mut [u8], to: usize) -> usize
    requires { (at < 2 ^ 32) × (n ≤ suc top) × (to + length (section_bytes (if_stays mark (cell_of s.now n at))) ≤ length sheet.old) }
    ensures { Puts to (section_bytes (if_stays mark (cell_of s.now n at))) sheet.old result sheet.new }
{
    if mark != 1 {
        copy_cell(s, at, n, sheet, to);
        to + 2 * n
    } else {
        to
    }
}

// Copies the cells of dimension p that stay, and tells where the next one goes. Their marks stand from place `from` on.
fn keep_section(s: &[u8], marks: &[u8], p: usize, from: usize, sheet: &mut [u8], to: usize) -> usize
    requires p_le_top { (p ≤ top) × (from ≡ cells_below (count_field s.now) p) × (from + count_field s.now p ≤ length marks.now) }
    requires p_in_bounds { to + length (section_bytes (section (unmarked_cells s.now marks.now) p)) ≤ length sheet.old }
    ensures { Puts to (section_bytes (section (unmarked_cells s.now marks.now) p)) sheet.old result sheet.new }
{
    let many = count(s, p);
    let at = start(s, p);
    let mut next = to;
    for (i, mark) in marks[from..from + many].iter().enumerate() {
        next = keep_cell(s, at + 2 * ((p + 1) * i), p + 1, *mark, sheet, next);
    }
    next
}

// Copies the cells that stay behind the header.
pub fn keep_sections(s: &[u8], marks: &[u8], sheet: &mut [u8])
    requires top_in_bounds { cells_below (count_field s.now) (suc top) ≤ length marks.now }
    requires marks_in_bounds { header_length + length (sections_bytes (unmarked_cells s.now marks.now)) ≤ length sheet.old }
    ensures { sheet.new ≡ splice header_length (sections_bytes (unmarked_cells s.now marks.now)) sheet.old }
{
    let mut to: usize = HEADER_LENGTH;
    let mut from: usize = 0;
    for p in 0..SECTIONS {
        to = keep_section(s, marks, p, from, sheet, to);
        from += count(s, p);
    }
}
