ghost use Rattle.std.specs.Prelude.{◌≡◌, ℕ, ◌*◌, ◌/◌, ◌≤◌, List, nat_le, slice_index};
ghost use Rattle.layout.specs.declared.bytes.Width.TheVariants.{Two, Four};
ghost use Rattle.layout.specs.Bytes.{u16_at, u32_at, bytes_of};

// The bytes of a field.
#[derive(Clone, Copy)]
pub enum Width {
    Two,
    Four,
}

// Each width divides by a number of its own, so that a method that tells it would save nothing. From `usize` to 64 bits there is no `From`.
impl Width {
    // Whether some bytes have room for so many fields.
    pub(crate) fn fits(self, count: u64, bytes: usize) -> bool
        ensures { result ≡ nat_le (bytes_of self * count) bytes }
    {
        match self {
            Width::Two => count <= bytes as u64 / 2,
            Width::Four => count <= bytes as u64 / 4,
        }
    }

    // How many of some bytes whole fields take.
    pub(crate) fn whole(self, bytes: usize) -> usize
        ensures whole { result ≡ bytes_of self * (bytes / bytes_of self) }
        ensures bound { result ≤ bytes }
    {
        match self {
            Width::Two => bytes / 2 * 2,
            Width::Four => bytes / 4 * 4,
        }
    }
}

// A number as tables write it, its high byte first.
pub trait Field: Copy {
    ghost use Rattle.layout.specs.declared.bytes.Width.{Width};

    ghost WIDTH: { Width };

    ghost value: { (table : List ℕ) → (byte : ℕ) → Self };

    const WIDTH: Width;

    // The number at a byte; bytes past the end read as 0.
    fn read(table: &[u8], at: usize) -> Self
        ensures { result ≡ value table.now at };
}

fn byte_at(table: &[u8], at: usize) -> u8
    ensures { result ≡ slice_index table.now at }
{
    table.get(at).copied().unwrap_or(0)
}

impl Field for u16 {
    ghost WIDTH = { Two };

    ghost value = { u16_at };

    const WIDTH: Width = Width::Two;

    fn read(table: &[u8], at: usize) -> u16 {
        if at >= table.len() {
            return 0;
        }
        u16::from(byte_at(table, at)) * 256 + u16::from(byte_at(table, at + 1))
    }
}

impl Field for u32 {
    ghost WIDTH = { Four };

    ghost value = { u32_at };

    const WIDTH: Width = Width::Four;

    fn read(table: &[u8], at: usize) -> u32 {
        if at >= table.len() {
            return 0;
        }
        u32::from_be_bytes([
            byte_at(table, at),
            byte_at(table, at + 1),
            byte_at(table, at + 2),
            byte_at(table, at + 3),
        ])
    }
}
