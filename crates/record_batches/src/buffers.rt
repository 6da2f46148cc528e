//! What stands between two buffers of a body.

ghost use Rattle.std.specs.Prelude.{◌≡◌, ◌-◌};
ghost use Rattle.batch_types.specs.Canonical.{padded};

/// How many bytes stand behind a buffer of so many bytes, up to the next multiple of eight.
pub(crate) fn padding(count: usize) -> usize
    ensures { result ≡ padded count - count }
{
    (8 - count % 8) % 8
}
