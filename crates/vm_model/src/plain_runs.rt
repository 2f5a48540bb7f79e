//! The longest run, bit by bit.
ghost use Rattle.std.specs.Prelude.{◌≡◌, ◌<◌, ◌^◌, length};
ghost use Rattle.vm_model.specs.Space.{span, longest};

/// The start and the length of the leftmost longest run of `false`, and zeros where there is none. It takes no memory.
pub fn plain_longest(bits: &[bool]) -> (u32, u32)
    requires { length bits.now < 2 ^ 32 }
    ensures { span result.0 result.1 ≡ longest bits.now }
{
    let mut best = (0, 0);
    let mut start = 0;
    for place in 0..bits.len() as u32 {
        if bits[place as usize] {
            start = place + 1;
        } else if place + 1 - start > best.1 {
            best = (start, place + 1 - start);
        }
    }
    best
}
