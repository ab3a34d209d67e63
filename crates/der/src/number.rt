// Numbers of several bytes.
ghost use Rattle.std.specs.Prelude.{◌≡◌, ◌≤◌, length};
ghost use Rattle.der.specs.Numbers.{value_of};

// The number that bytes stand for, high byte first. Seven bytes fit a `usize`.
pub(crate) fn number_of(bytes: &[u8]) -> usize
    requires { length bytes.now ≤ 7 }
    ensures { result ≡ value_of bytes.now }
{
    let mut value = 0usize;
    for byte in bytes {
        value = value * 256 + usize::from(*byte);
    }
    value
}
