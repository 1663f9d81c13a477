// The search for a byte in a part of a slice.
#![tactic(auto)]

ghost use Rattle.std.specs.Prelude.{◌≡◌, ◌+◌, ◌≤◌};
ghost use Rattle.byte_scan.specs.Bytes.{index_of, slice};

// The first place from `from` on where `b` stands; where it stands at none below `to` in the slice, the end of that part. An empty part ends where
// it begins. No `Option`: callers cut a text at this end, whether the byte stands there or not.
pub fn find(s: &[u8], from: usize, to: usize, b: u8) -> usize
    ensures place { result ≡ from + index_of b (slice from to s.now) }
    ensures most { from ≤ to → result ≤ to }
{
    let part = s.get(from..to.min(s.len())).unwrap_or(&[]);
    let place = part.iter().position(|x| *x == b);
    from + place.unwrap_or(part.len())
}
