//! Trimming: a row loses the spaces at its end, so that blank rows and bare margins carry none.
ghost use Rattle.std.specs.Prelude.{◌≡◌, ◌≤◌, length, take};
ghost use Rattle.paint.specs.Rows.{trim};

/// How many bytes are left without the spaces at the end.
pub fn trimmed(bytes: &[u8]) -> usize
    ensures within { result ≤ length bytes.now }
    ensures value { result ≡ length (trim bytes.now) }
    ensures rest { take result bytes.now ≡ trim bytes.now }
{
    let mut rest = bytes;
    while let Some(front) = rest.strip_suffix(b" ") {
        rest = front;
    }
    rest.len()
}
