// The words of a set copied.
ghost use Rattle.std.specs.Prelude.{◌≡◌, length};

// All words go over. By number: with the library's copy of a slice the archive for C would ask its caller for `memmove`.
pub(crate) fn copy_into(from: &[u64], to: &mut [u64])
    requires { length to.old ≡ length from.now }
    ensures { to.new ≡ from.now }
{
    for b in 0..to.len() {
        to[b] = from[b];
    }
}
