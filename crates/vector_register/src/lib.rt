// Registers of 256 bits in a list of words: vector v is bit v mod 32 of the word at place + v div 32. Each caller gives
// the place by a constant, so that its bound needs no type.
#![tactic(auto)]

ghost use Rattle.std.specs.Prelude.{◌≡◌, ℕ, ◌+◌, ◌<◌, ◌≤◌, ◌^◌, length};
ghost use Rattle.vector_register.specs.Vectors.{bit_at, with_vector, lowest, marked, some_up_to};

// Whether a vector is set in the register at a place.
pub fn any(b: &[u32], place: usize) -> bool
    requires { (place < 2 ^ 32) × (place + 8 ≤ length b.now) }
    ensures { result ≡ some_up_to (λ (k : ℕ). bit_at b.now place k) 255 }
{
    b[place..place + 8].iter().any(|word| *word != 0)
}

// The lowest vector that is set in the register at a place: the lowest set bit of the first word that is not zero.
pub fn lowest(b: &[u32], place: usize) -> Option<u8>
    requires { (place < 2 ^ 32) × (place + 8 ≤ length b.now) }
    ensures { result ≡ lowest b.now place }
{
    for i in 0..8 {
        let word = b[place + i as usize];
        if word != 0 {
            return Some((32 * i + word.trailing_zeros()) as u8);
        }
    }
    None
}

// x at vector v of the register at a place.
pub fn put_vector(b: &mut [u32], place: usize, v: u8, x: u32)
    requires place_bound { (place < 2 ^ 32) × (place + 8 ≤ length b.old) }
    requires x_bound { x < 2 }
    ensures { b.new ≡ with_vector b.old place v x }
{
    let at = place + (v / 32) as usize;
    b[at] = word::put_bit(b[at], u32::from(v) % 32, x);
}

// x at the vector found, if one was.
pub fn mark(b: &mut [u32], place: usize, f: Option<u8>, x: u32)
    requires place_bound { (place < 2 ^ 32) × (place + 8 ≤ length b.old) }
    requires x_bound { x < 2 }
    ensures { b.new ≡ marked b.old place f x }
{
    if let Some(v) = f {
        put_vector(b, place, v, x);
    }
}
