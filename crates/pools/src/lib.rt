// Payloads copied between lent parts.
#![tactic(auto)]

ghost use Rattle.std.specs.Prelude.{◌≡◌, ◌+◌, ◌≤◌, length};
ghost use Rattle.std.proofs.lemmas.List.Edits.{sets};
ghost use Rattle.pools.specs.Parts.{part};

// The `len` bytes of `src` from `from` on are stored in `out` from `at` on. No other byte changes.
pub fn copy_part(src: &[u8], from: usize, len: usize, out: &mut [u8], at: usize)
    requires { (from + len ≤ length src.now) × (at + len ≤ length out.old) }
    ensures { out.new ≡ sets out.old at (part src.now from len) }
{
    for i in 0..len {
        out[at + i] = src[from + i];
    }
}
