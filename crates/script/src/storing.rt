// Elements stored over those of a buffer: bytes of a text, or words of a machine.
ghost use Rattle.std.specs.Prelude.{◌≡◌, ◌+◌, ◌≤◌, length};
ghost use Rattle.std.proofs.lemmas.List.Edits.{sets};

// Stores `from` over the elements from `at` on. A loop, and not `copy_from_slice`: of that the compiler makes `memmove` where it cannot tell
// that the two do not overlap, and a freestanding program would have to bring that too.
pub fn store<T: Copy>(to: &mut [T], at: usize, from: &[T])
    requires { at + length from.now ≤ length to.old }
    ensures { to.new ≡ sets to.old at from.now }
{
    for i in 0..from.len() {
        to[at + i] = from[i];
    }
}
