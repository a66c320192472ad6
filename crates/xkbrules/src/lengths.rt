// The sheet of lengths: numbers of four bytes each, the lowest byte first.
ghost use Rattle.std.specs.Prelude.{◌≡◌, ◌++◌, ◌+◌, ◌*◌, ◌≤◌, length, take, drop};
ghost use Rattle.text.specs.Bytes.{concat_map};
ghost use Rattle.xkbrules.specs.Sheet.{sheet_length, little_endian, number_at, lengths_in};

fn put_number(sheet: &mut [u8], at: usize, x: u32)
    requires { at + 4 ≤ length sheet.old }
    ensures { sheet.new ≡ take at sheet.old ++ (little_endian x ++ drop (at + 4) sheet.old) }
{
    sheet[at..at + 4].copy_from_slice(&x.to_le_bytes());
}

// The lengths into the first bytes of a sheet: ten are 40 bytes, fourteen 56.
pub fn put_lengths(sheet: &mut [u8], lengths: &[u32])
    requires { 4 * length lengths.now ≤ length sheet.old }
    ensures { sheet.new ≡ concat_map little_endian lengths.now ++ drop (4 * length lengths.now) sheet.old }
{
    for (i, x) in lengths.iter().enumerate() {
        put_number(sheet, 4 * i, *x);
    }
}

fn number_at(sheet: &[u8], at: usize) -> u32
    requires { at + 4 ≤ length sheet.now }
    ensures { result ≡ number_at sheet.now at }
{
    u32::from_le_bytes([sheet[at], sheet[at + 1], sheet[at + 2], sheet[at + 3]])
}

// The ten lengths in the first 40 bytes.
pub fn lengths_in(sheet: &[u8]) -> [u32; 10]
    requires { sheet_length ≤ length sheet.now }
    ensures { result ≡ lengths_in sheet.now }
{
    let mut lengths: [u32; 10] = [0; 10];
    for (i, x) in lengths.iter_mut().enumerate() {
        *x = number_at(sheet, 4 * i);
    }
    lengths
}
