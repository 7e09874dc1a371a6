// The sheet of the cells.
ghost use Rattle.std.specs.Prelude.{◌≡◌, suc, ◌+◌, ◌*◌, ◌≤◌, length};
ghost use Rattle.lists.specs.Splice.{splice};
ghost use Rattle.complexes.specs.Packed.{word_vertices};
ghost use Rattle.sheet_format.specs.Layout as spec;
ghost use Rattle.sheet_writer.specs.Write.{count_of, Small, WritesCell, WritesSection, Measures, Fits, WritesSections, WritesSheet};

use cell_sets::set::{CellSet, SECTIONS};
use cell_sets::vertices::vertex;
use fields::field::HEADER_LENGTH;

// Writes a field at byte `at`: two bytes, the low one first.
pub fn write_field(v: usize, sheet: &mut [u8], at: usize)
    requires { at + 2 ≤ length sheet.old }
    ensures { sheet.new ≡ splice at (spec.field v) sheet.old }
{
    let bytes = ((v % 65536) as u16).to_le_bytes();
    sheet[at..at + 2].copy_from_slice(&bytes);
}

// Writes the cell of n vertices with this word at byte `at`.
fn write_cell(word: u64, n: usize, sheet: &mut [u8], at: usize)
    requires { (n ≤ word_vertices) × (at + 2 * n ≤ length sheet.old) }
    ensures { WritesCell n word at sheet.old sheet.new }
{
    for j in 0..n {
        let v = vertex(word, n - 1 - j);
        write_field(v as usize, sheet, at + 2 * j);
    }
}

// Writes the cells of n vertices with these words at byte `at`.
fn write_section(words: &[u64], n: usize, sheet: &mut [u8], at: usize)
    requires { (n ≤ word_vertices) × (at + 2 * (n * length words.now) ≤ length sheet.old) }
    ensures { WritesSection n words.now at sheet.old sheet.new }
{
    for (i, word) in words.iter().enumerate() {
        write_cell(*word, n, sheet, at + 2 * (n * i));
    }
}

// The byte at which section p starts; for p = SECTIONS, the length of the sheet.
pub fn section_start(counts: &[usize; SECTIONS], p: usize) -> usize
    requires { (p ≤ suc spec.top) × Small counts.now }
    ensures { result ≡ spec.start (count_of counts.now) p }
{
    let mut at: usize = HEADER_LENGTH;
    for (q, many) in counts[..p].iter().enumerate() {
        at += 2 * ((q + 1) * *many);
    }
    at
}

// The length of the sheet in bytes.
pub fn sheet_length(cells: &CellSet) -> usize
    ensures { Measures cells.now result }
{
    section_start(cells.counts(), SECTIONS)
}

// Writes the header: a count and an offset for each dimension.
pub fn write_header(counts: &[usize; SECTIONS], sheet: &mut [u8])
    requires { Small counts.now × (spec.header_length ≤ length sheet.old) }
    ensures { sheet.new ≡ splice 0 (spec.header_bytes (count_of counts.now) 0 (suc spec.top)) sheet.old }
{
    for (p, many) in counts.iter().enumerate() {
        write_field(*many, sheet, 4 * p);
        let start = section_start(counts, p);
        write_field(start, sheet, 4 * p + 2);
    }
}

// Writes the sections behind the header.
fn write_sections(cells: &CellSet, sheet: &mut [u8])
    requires { Fits cells.now sheet.old }
    ensures { WritesSections cells.now sheet.old sheet.new }
{
    for p in 0..SECTIONS {
        let start = section_start(cells.counts(), p);
        write_section(cells.section(p), p + 1, sheet, start);
    }
}

// Writes the sheet of the cells from the start on, and leaves the rest as it is.
pub fn write_sheet(cells: &CellSet, sheet: &mut [u8])
    requires { Fits cells.now sheet.old }
    ensures { WritesSheet cells.now sheet.old sheet.new }
{
    write_header(cells.counts(), sheet);
    write_sections(cells, sheet);
}
