// Little-endian numbers in a slice.
ghost use Rattle.std.specs.Prelude.{◌≡◌, ℕ, ◌+◌, ◌≤◌, length};
ghost use Rattle.std.proofs.lemmas.List.Edits.{sets};
ghost use Rattle.wire.specs.LittleEndian.{bytes_of, number_at};

// An unsigned number that stands in a slice as so many bytes, the lowest first.
pub trait Number: Copy {
    ghost width: { ℕ };

    ghost value: { Self → ℕ };

    // Stores the number's bytes at `at`; no other byte changes.
    fn put(self, out: &mut [u8], at: usize)
        requires { at + width ≤ length out.old }
        ensures { out.new ≡ sets out.old at (bytes_of width (value self)) };

    // The number that the bytes at `at` are.
    fn read(s: &[u8], at: usize) -> Self
        requires { at + width ≤ length s.now }
        ensures { value result ≡ number_at width s.now at };
}

impl Number for u8 {
    ghost width = { 1 };

    ghost value = { λ x. x };

    #[tactic(auto, unfolding(crate::specs::LittleEndian::bytes_of))]
    fn put(self, out: &mut [u8], at: usize) {
        out[at] = self;
    }

    #[tactic(auto, unfolding(crate::specs::LittleEndian::number_at))]
    fn read(s: &[u8], at: usize) -> u8 {
        s[at]
    }
}

impl Number for u16 {
    ghost width = { 2 };

    ghost value = { λ x. x };

    #[tactic(auto, using(crate::specs::Stores::part_stored, crate::specs::LittleEndianLaws::le_16))]
    fn put(self, out: &mut [u8], at: usize) {
        out[at..at + 2].copy_from_slice(&self.to_le_bytes());
    }

    #[tactic(auto, unfolding(crate::specs::LittleEndian::number_at))]
    fn read(s: &[u8], at: usize) -> u16 {
        u16::from_le_bytes([s[at], s[at + 1]])
    }
}

impl Number for u32 {
    ghost width = { 4 };

    ghost value = { λ x. x };

    #[tactic(auto, using(crate::specs::Stores::part_stored, crate::specs::LittleEndianLaws::le_32))]
    fn put(self, out: &mut [u8], at: usize) {
        out[at..at + 4].copy_from_slice(&self.to_le_bytes());
    }

    #[tactic(auto, unfolding(crate::specs::LittleEndian::number_at))]
    fn read(s: &[u8], at: usize) -> u32 {
        u32::from_le_bytes([s[at], s[at + 1], s[at + 2], s[at + 3]])
    }
}
