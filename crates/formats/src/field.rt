// A field's bytes.
ghost use Rattle.std.specs.Prelude.{◌≡◌, ◌+◌, ◌*◌, ◌^◌, ◌<◌, ◌≤◌, length, IfOk};
ghost use Rattle.formats.specs.Bytes.{number_at};
ghost use Rattle.formats.specs.Field.{read_with, read_as, in_range_at, cells_read, IsField, ReadsBack, FirstFault};

use crate::refusal::Refusal;

// What stands before a field's cells.
#[derive(Clone, Copy, PartialEq, Eq, Debug)]
pub struct Header {
    pub groups: usize,
    pub lanes: usize,
    pub steps: u64,
    pub cells: usize,
}

// The number that N bytes mean, low byte first.
// That N is at most 8 is a clause: no type bounds a constant.
fn number<const N: usize>(bytes: &[u8], at: usize) -> u64
    requires few { N ≤ 8 }
    requires room { at + N ≤ length bytes.now }
    ensures value { result ≡ number_at N bytes.now at }
    ensures bound { result < 256 ^ N }
{
    let mut low = [0; 8];
    low[..N].copy_from_slice(&bytes[at..at + N]);
    u64::from_le_bytes(low)
}

// A number that is all there and in range; else the byte in fault.
fn number_in<const N: usize>(bytes: &[u8], at: usize, low: u64, high: u64) -> Result<u64, Refusal>
    requires few { N ≤ 8 }
    requires front { at < 16 }
    ensures { result ≡ in_range_at (length bytes.now) at N (number_at N bytes.now at) low high }
{
    if bytes.len() < at + N {
        return Err(Refusal::Field(bytes.len()));
    }
    let n = number::<N>(bytes, at);
    if n < low || high < n {
        return Err(Refusal::Field(at));
    }
    Ok(n)
}

// The numbers in front of the cells, or the first byte in fault.
fn read_front(bytes: &[u8]) -> Result<Header, Refusal>
    ensures { result ≡ read_with (length bytes.now) (number_at 2 bytes.now 0) (number_at 2 bytes.now 2) (number_at 8 bytes.now 4) (number_at 4 bytes.now 12) }
{
    let groups = number_in::<2>(bytes, 0, 1, 1024)?;
    let lanes = number_in::<2>(bytes, 2, 1, 1024)?;
    let steps = number_in::<8>(bytes, 4, 0, 1 << 40)?;
    let cells = number_in::<4>(bytes, 12, 0, 1 << 24)?;
    let wanted = 16 + 4 * cells as usize;
    if bytes.len() != wanted {
        return Err(Refusal::Field(bytes.len().min(wanted)));
    }
    Ok(Header {
        groups: groups as usize,
        lanes: lanes as usize,
        steps,
        cells: cells as usize,
    })
}

// What stands before the field's cells; refused at the first byte in fault.
pub fn read_field(bytes: &[u8]) -> Result<Header, Refusal>
    ensures value { result ≡ read_as bytes.now }
    ensures field { IfOk result (λ h. IsField bytes.now h) }
{
    read_front(bytes)
}

// Copies the field's cells into a part that is lent for them.
pub fn copy_cells(bytes: &[u8], out: &mut [u32])
    requires { 16 + 4 * length out.old ≤ length bytes.now }
    ensures { out.new ≡ cells_read bytes.now (length out.old) }
{
    for (i, cell) in out.iter_mut().enumerate() {
        *cell = number::<4>(bytes, 16 + 4 * i) as u32;
    }
}

// The bytes of a field in range are read as that field.
pub fn reads_back_stands()
    ensures { ReadsBack }
{}

// Bytes are refused at the lowest place with a fault.
pub fn first_fault_stands()
    ensures { FirstFault }
{}
