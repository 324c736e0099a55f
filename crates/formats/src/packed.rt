// Writing a field's bytes.
ghost use Rattle.std.specs.Prelude.{◌≡◌, ◌+◌, ◌*◌, ◌<◌, ◌≤◌, length, MatchOption};
ghost use Rattle.formats.specs.Bytes.{low_bytes};
ghost use Rattle.formats.specs.Field.{cells_bytes, field_bytes};
ghost use Rattle.formats.specs.Wrote.{Wrote, Writes};

use crate::pen::Pen;

// The N low bytes of a number.
fn put_low<const N: usize>(pen: &mut Pen, n: u64)
    requires few { N ≤ 8 }
    requires room { pen.old.at + N ≤ length pen.old.out.now }
    ensures wrote { Writes pen.old pen.new (low_bytes N n) }
    ensures size { pen.new.at ≡ pen.old.at + N }
{
    pen.put_all(&n.to_le_bytes()[..N]);
}

fn put_cells(pen: &mut Pen, cells: &[u32])
    requires { pen.old.at + 4 * length cells.now ≤ length pen.old.out.now }
    ensures { Writes pen.old pen.new (cells_bytes cells.now) }
{
    for cell in cells {
        put_low::<4>(pen, u64::from(*cell));
    }
}

fn put_field(pen: &mut Pen, groups: usize, lanes: usize, steps: u64, cells: &[u32])
    requires { pen.old.at + 16 + 4 * length cells.now ≤ length pen.old.out.now }
    ensures { Writes pen.old pen.new (field_bytes groups lanes steps cells.now) }
{
    put_low::<2>(pen, groups as u64);
    put_low::<2>(pen, lanes as u64);
    put_low::<8>(pen, steps);
    put_low::<4>(pen, cells.len() as u64);
    put_cells(pen, cells);
}

// Writes a field's bytes, and answers how many. None: the slice is too short for them, and nothing is written.
pub fn write_field(
    out: &mut [u8],
    groups: usize,
    lanes: usize,
    steps: u64,
    cells: &[u32],
) -> Option<usize>
    ensures { MatchOption result ((length out.old < 16 + 4 * length cells.now) × (out.new ≡ out.old)) (λ n. (16 + 4 * length cells.now ≤ length out.old) × Wrote out.old out.new 0 n (field_bytes groups lanes steps cells.now)) }
{
    if out.len() < 16 || (out.len() - 16) / 4 < cells.len() {
        return None;
    }
    let mut pen = Pen { out, at: 0 };
    put_field(&mut pen, groups, lanes, steps, cells);
    Some(pen.at)
}
