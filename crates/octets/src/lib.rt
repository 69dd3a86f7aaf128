// Octets copied and sought: what several layers do with bytes, and the library has in no one call.
#![tactic(auto)]

ghost use Rattle.std.specs.Prelude.{◌≡◌, ◌+◌, ◌≤◌, ◌++◌, ◌<◌, ◌^◌, ◌==◌, length, take, drop, position, IfSome};
ghost use Rattle.lists.specs.Put.{put};
ghost use Rattle.octets.specs.Seeking.{index_of};

// Copies all of `from` to the front of `to`; how many octets that are.
pub fn copy(from: &[u8], to: &mut [u8]) -> usize
    requires { length from.now ≤ length to.old }
    ensures count { result ≡ length from.now }
    ensures value { to.new ≡ from.now ++ drop (length from.now) to.old }
{
    let n = from.len();
    to[..n].copy_from_slice(from);
    n
}

// The N octets from a place on. Few of them are moved by the register.
pub fn chunk_at<const N: usize>(s: &[u8], at: usize) -> [u8; N]
    requires { at + N ≤ length s.now }
    ensures { result ≡ take N (drop at s.now) }
{
    let mut chunk = [0u8; N];
    chunk.copy_from_slice(&s[at..at + N]);
    chunk
}

// N octets stored from a place on. By value, so that they move by the register: of a reference the compiler asks whether it overlaps with `out`.
pub fn put_chunk<const N: usize>(out: &mut [u8], at: usize, chunk: [u8; N])
    requires { at + N ≤ length out.old }
    ensures { out.new ≡ put out.old at chunk.entry }
{
    out[at..at + N].copy_from_slice(&chunk);
}

// n octets from the place `at` on also from `to` on, where the two may overlap. Up to N of them go by way of an array that overlaps with
// neither, which tells the compiler that this is one move: the array itself is never laid out. More than N move octet by octet.
pub fn shift<const N: usize>(s: &mut [u8], at: usize, n: usize, to: usize)
    requires { (N < 2 ^ 63) × (at + n ≤ length s.old) × (to + n ≤ length s.old) }
    ensures { s.new ≡ put s.old to (take n (drop at s.old)) }
{
    if n > N {
        s.copy_within(at..at + n, to);
        return;
    }
    let mut array = [0u8; N];
    array[..n].copy_from_slice(&s[at..at + n]);
    s[to..to + n].copy_from_slice(&array[..n]);
}

// The index of the first `b`, if there is one.
fn position_of(s: &[u8], b: u8) -> Option<usize>
    ensures value { result ≡ position (λ x. x == b) s.now }
    ensures in_bounds { IfSome result (λ k. k < length s.now) }
{
    s.iter().position(|x| *x == b)
}

// The place of the first `b` from a place on, or the end where there is none.
pub fn find(s: &[u8], from: usize, b: u8) -> usize
    requires { from ≤ length s.now }
    ensures place { result ≡ from + index_of b (drop from s.now) }
    ensures in_bounds { result ≤ length s.now }
{
    match position_of(&s[from..], b) {
        Some(k) => from + k,
        None => s.len(),
    }
}
