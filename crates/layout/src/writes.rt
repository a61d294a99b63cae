// A store written from a place on.
ghost use Rattle.std.specs.Prelude.{◌≡◌, ◌+◌, ◌*◌, ◌≤◌, length, replicate};
ghost use Rattle.model.specs.Values.{put_words};
ghost use Rattle.model.specs.Emission.{written};

// The bytes from place at on. A loop, and no `copy_from_slice`: that is C's memmove, which an archive for C would then need from outside.
pub fn put_bytes(s: &mut [u8], at: usize, bytes: &[u8])
    requires { at + length bytes.now ≤ length s.old }
    ensures { s.new ≡ written s.old at bytes.now }
{
    for i in 0..bytes.len() {
        s[at + i] = bytes[i];
    }
}

// One place of the source for each of n bytes. (The library says it by itself; proofs above cite this contract.)
pub fn put_places(s: &mut [u32], at: usize, n: usize, place: u32)
    requires { at + n ≤ length s.old }
    ensures { s.new ≡ written s.old at (replicate n place) }
{
    s[at..at + n].fill(place);
}

// The bytes of code from place at on, and the place of the source for each.
pub fn put_code(code: &mut [u8], places: &mut [u32], at: usize, bytes: &[u8], place: u32)
    requires { (at + length bytes.now ≤ length code.old) × (at + length bytes.now ≤ length places.old) }
    ensures { (code.new ≡ written code.old at bytes.now) × (places.new ≡ written places.old at (replicate (length bytes.now) place)) }
{
    put_bytes(code, at, bytes);
    put_places(places, at, bytes.len(), place);
}

// The two words of place i.
pub fn put_words(s: &mut [u64], i: usize, first: u64, second: u64)
    requires { 2 * i + 2 ≤ length s.old }
    ensures { s.new ≡ put_words s.old i first second }
{
    s[2 * i] = first;
    s[2 * i + 1] = second;
}
