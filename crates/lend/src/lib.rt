// Copies into lent slices: numbers, with a sign or without, and bytes are put at a place of a slice that has room for them, and everything
// else in it keeps its value. Each says so by `paste` of the kit's Math.Seq: the part before the place, what is put, the rest.
#![tactic(auto)]

ghost use Rattle.std.specs.Prelude.{◌≡◌, map, ◌+◌, ◌≤◌, length, pos};
ghost use Rattle.std.proofs.Math.Seq.{paste};

// Numbers of one type: unsigned ones, or ones with a sign.
pub fn put<N: Copy>(target: &mut [N], place: usize, numbers: &[N])
    requires { place + length numbers.now ≤ length target.old }
    ensures { target.new ≡ paste target.old place numbers.now (length numbers.now) }
{
    target[place..place + numbers.len()].copy_from_slice(numbers);
}

// Bytes, as numbers with a sign.
pub fn put_bytes(target: &mut [i64], place: usize, bytes: &[u8])
    requires { place + length bytes.now ≤ length target.old }
    ensures { target.new ≡ paste target.old place (map pos bytes.now) (length bytes.now) }
{
    for (i, byte) in bytes.iter().enumerate() {
        target[place + i] = i64::from(*byte);
    }
}
