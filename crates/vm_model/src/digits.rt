//! Binary digits.
ghost use Rattle.std.specs.Prelude.{◌≡◌, ◌<◌, ◌≤◌, ◌^◌, ℕ};
ghost use Rattle.vm_model.specs.Bits as model;

/// How many binary digits a number has, the kernel's `fls`; 0 has none.
pub fn binary_digits(number: u32) -> u32
    ensures digits { result ≡ model.binary_digits number }
    ensures least { (most : ℕ) → number < 2 ^ most → result ≤ most }
    ensures most { result ≤ 32 }
{
    let mut digits = 0;
    let mut rest = number;
    while rest > 0 {
        rest /= 2;
        digits += 1;
    }
    digits
}
