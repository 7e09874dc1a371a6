// The checks 5 and 6 over one section.
ghost use Rattle.std.specs.Prelude.{◌≡◌, not, suc, pred, ◌≤◌, ◌<◌};
ghost use Rattle.complexes.specs.Cell.{precedes};
ghost use Rattle.complexes.specs.Cell as spec;
ghost use Rattle.complexes.specs.Complex.{count, cell};
ghost use Rattle.sheet_format.specs.Layout.{top};
ghost use Rattle.sheet_format.specs.Check.{sections_of, some};
ghost use Rattle.cells.specs.Section.{cell_in};

use cells::cell::rises;
use cells::section::Section;

// Whether cell i of the section stands before the next one.
fn stands_before(s: &[u8], section: Section, i: usize) -> bool
    requires { suc i < 65536 }
    ensures { result ≡ precedes (cell_in s.now section i) (cell_in s.now section (suc i)) }
{
    section.word(s, i) < section.word(s, i + 1)
}

// Whether in some cell of section p the vertices do not rise strictly.
pub fn vertices_fall(s: &[u8], p: usize) -> bool
    requires { p ≤ top }
    ensures { result ≡ some (count (sections_of s.now) p) (λ i. not (spec.rises (cell (sections_of s.now) p i))) }
{
    let section = Section::of(s, p);
    (0..section.many).any(|i| !rises(s, section.byte(i), section.vertices))
}

// Whether some cell of section p does not stand before the next one.
pub fn cells_fall(s: &[u8], p: usize) -> bool
    requires { p ≤ top }
    ensures { result ≡ some (pred (count (sections_of s.now) p))
        (λ i. not (precedes (cell (sections_of s.now) p i) (cell (sections_of s.now) p (suc i)))) }
{
    let section = Section::of(s, p);
    (0..section.many.saturating_sub(1)).any(|i| !stands_before(s, section, i))
}
