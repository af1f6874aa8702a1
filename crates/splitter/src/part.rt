// A part of a buffer.
ghost use Rattle.std.specs.Prelude.{◌≡◌, take};

// The first n bytes of a buffer, or all of a shorter one.
pub fn start(text: &[u8], n: usize) -> &[u8]
    ensures { result.now ≡ take n text.now }
{
    &text[..n.min(text.len())]
}
