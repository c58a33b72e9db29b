// The datagrams found, written by place.
ghost use Rattle.std.specs.Prelude.{◌≡◌, true, ◌*◌, ◌≤◌, length};
ghost use Rattle.std.proofs.lemmas.List.Edits.{sets};
ghost use Rattle.frames.specs.Lists.{lengths_of, joined};
ghost use Rattle.frames.specs.Outcomes.{lengths_ok};
ghost use Rattle.parity_found.specs.Ready.{Ready, found_in};

use parity_found::found::{self, Group};

pub fn put_found<'a>(g: &Group<'a>, out: &mut [u8], out_lengths: &mut [u16])
    requires { Ready g.now × (lengths_ok g.now.shape.mtu (lengths_of (found_in g.now)) ≡ true)
        × (10 * g.now.shape.mtu ≤ length out.old) × (10 ≤ length out_lengths.old) }
    ensures bytes { out.new ≡ sets out.old 0 (joined (found_in g.now)) }
    ensures lengths { out_lengths.new ≡ sets out_lengths.old 0 (lengths_of (found_in g.now)) }
{
    let mut at = 0;
    for p in 0..g.shape.k {
        let t = found::trimmed(g, p);
        let n = t.len() - 2;
        pools::copy_part(t, 2, n, out, at);
        out_lengths[p] = n as u16;
        at += n;
    }
}
