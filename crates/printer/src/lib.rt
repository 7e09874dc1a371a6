// The text that the program prints for a sheet.
#![tactic(auto)]

pub mod room;

ghost use Rattle.std.specs.Prelude.{◌≡◌, List, ℕ, suc, ◌+◌, ◌≤◌, length, take};
ghost use Rattle.sheet_format.specs.Layout.{top};
ghost use Rattle.sheet_format.specs.Check.{refusal};
ghost use Rattle.reports.specs.Reductions.{no_transforms};
ghost use Rattle.requests.specs.Question.{asked, cell_count, two};
ghost use Rattle.program_text.specs.Text.{dimension_text, dimensions_text, program_text};
ghost use Rattle.limits.specs.Limits.{host_limit};
ghost use Rattle.text.specs.Put.{PutsWithin, Writes};
ghost use Rattle.text.specs.Room.{dimension_room, text_room};

use crate::room::{INPUT_ROOM, TEXT_ROOM};
use calls::report::report_at;
use calls::slots::{REPORT_SLOTS, WORK_SLOTS};
use fields::field::{TOP, count as cells_of};
use sheet::reader::Sheet;
use text::writer::Writer;

// What the report call writes: the numbers of a report, and its work.
#[derive(Drop)]
struct Slots {
    report: [i64; REPORT_SLOTS],
    work: [i32; WORK_SLOTS],
}

// Writes the text of dimension p of an accepted sheet.
fn put_dimension(s: &[u8], p: usize, slots: &mut Slots, out: &mut Writer)
    requires { (refusal host_limit s.now ≡ 0) × (p ≤ top) × (out.old.at + dimension_room ≤ length out.old.out.now) }
    ensures { let q = asked s.now p in Writes dimension_room (dimension_text p (cell_count q) (two q no_transforms)) out.old out.new }
{
    match report_at(
        Sheet::host(),
        s,
        p as u32,
        &mut slots.report,
        &mut slots.work,
    ) {
        Err(refusal) => out.put_refusal(refusal),
        Ok(counts) => {
            let generators = counts.torsion + counts.free;
            out.put_report(p, cells_of(s, p), counts.torsion, generators, &slots.report);
        }
    }
}

// Writes the text of every dimension of an accepted sheet.
fn put_dimensions(s: &[u8], out: &mut Writer)
    requires { (refusal host_limit s.now ≡ 0) × (out.old.at + text_room ≤ length out.old.out.now) }
    ensures { Writes text_room (dimensions_text s.now (suc top) 0) out.old out.new }
{
    let mut slots = Slots {
        report: [0; REPORT_SLOTS],
        work: [0; WORK_SLOTS],
    };
    for p in 0..=TOP {
        put_dimension(s, p, &mut slots, out);
    }
}

// Writes what the program prints for a sheet.
pub fn print_sheet(s: &[u8], out: &mut [u8; TEXT_ROOM]) -> usize
    ensures { PutsWithin text_room (program_text s.now) 0 out.old result out.new }
{
    let mut writer = Writer::new(out);
    match Sheet::host().read(s) {
        Err(refusal) => writer.put_refusal(refusal),
        Ok(()) => put_dimensions(s, &mut writer),
    }
    writer.written()
}

// Writes what the program prints for an input b. The first n bytes of `input` are those of b: all of b where it is shorter than the array, and as
// many as the array has where it is not.
pub fn print_input(input: &[u8; INPUT_ROOM], n: usize, out: &mut [u8; TEXT_ROOM]) -> usize
    ensures { let held = input.now in
        let left = out.new in ((b : List ℕ) → take (length held) b ≡ take n held → PutsWithin text_room (program_text b) 0 out.old result left) }
{
    print_sheet(&input[..n.min(INPUT_ROOM)], out)
}
