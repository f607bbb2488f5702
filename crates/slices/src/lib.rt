// Slices copied over slices.
//
// The library's `copy_from_slice` of slices that are lent becomes a call of memmove in machine code, and this loop does not: so the library for
// C asks for no more than memcpy and memset.

#![tactic(auto)]

ghost use Rattle.std.specs.Prelude.{◌≡◌, length};

// Copies a slice over another one of its length.
pub fn copy<T: Copy>(from: &[T], to: &mut [T])
    requires { length to.old ≡ length from.now }
    ensures { to.new ≡ from.now }
{
    for i in 0..from.len() {
        to[i] = from[i];
    }
}
