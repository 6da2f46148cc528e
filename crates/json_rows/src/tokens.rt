//! Values of JSON with nothing inside them, as they are written.

ghost use Rattle.std.specs.Prelude.{◌≡◌, ◌<◌, ◌^◌, negsuc, OnOk, OnErr, IsTrue};
ghost use Rattle.std.specs.Float.{float_is_finite};
ghost use Rattle.serde_json.specs.Data.{null, boolean, number, string, unsigned, negative, float};
ghost use Rattle.json_rows.specs.Written.{WritesValue};

use json::{Token, Writer};
use std::alloc::AllocError;

/// Writes a null.
pub(crate) fn put_null(out: &mut Writer) -> Result<(), AllocError>
    ensures written { OnOk result (WritesValue (λ d. d ≡ null) 0 out.old.tokens out.new.tokens) }
    ensures before { out.new.before ≡ out.old.before }
    ensures kept { OnErr result (out.new.tokens ≡ out.old.tokens) }
{
    out.token(Token::Null)
}

/// Writes `true` or `false`.
pub(crate) fn put_bool(out: &mut Writer, bit: bool) -> Result<(), AllocError>
    ensures written { OnOk result (WritesValue (λ d. d ≡ boolean bit) 0 out.old.tokens out.new.tokens) }
    ensures before { out.new.before ≡ out.old.before }
    ensures kept { OnErr result (out.new.tokens ≡ out.old.tokens) }
{
    out.token(Token::Bool(bit))
}

/// Writes a text.
pub(crate) fn put_text(out: &mut Writer, text: &str) -> Result<(), AllocError>
    ensures written { OnOk result (WritesValue (λ d. d ≡ string text.now) 0 out.old.tokens out.new.tokens) }
    ensures before { out.new.before ≡ out.old.before }
    ensures kept { OnErr result (out.new.tokens ≡ out.old.tokens) }
{
    out.string(text)
}

/// Writes a whole number that is not below 0.
pub(crate) fn put_unsigned(out: &mut Writer, whole: u64) -> Result<(), AllocError>
    ensures written { OnOk result (WritesValue (λ d. d ≡ number (unsigned whole)) 0 out.old.tokens out.new.tokens) }
    ensures before { out.new.before ≡ out.old.before }
    ensures kept { OnErr result (out.new.tokens ≡ out.old.tokens) }
{
    out.u64(whole)
}

/// The whole number that is so far below -1.
fn below_minus_one(below: u64) -> i64
    requires { below < 2 ^ 63 }
    ensures { result ≡ negsuc below }
{
    -1 - (below as i64)
}

/// Writes the whole number that is so far below -1.
pub(crate) fn put_negative(out: &mut Writer, below: u64) -> Result<(), AllocError>
    requires { below < 2 ^ 63 }
    ensures written { OnOk result (WritesValue (λ d. d ≡ number (negative (negsuc below))) 0 out.old.tokens
        out.new.tokens) }
    ensures before { out.new.before ≡ out.old.before }
    ensures kept { OnErr result (out.new.tokens ≡ out.old.tokens) }
{
    out.i64(below_minus_one(below))
}

/// Writes a float, in the shortest digits that were found to read back as it.
pub(crate) fn put_float(out: &mut Writer, double: f64) -> Result<(), AllocError>
    requires { IsTrue (float_is_finite double) }
    ensures written { OnOk result (WritesValue (λ d. d ≡ number (float double)) 0 out.old.tokens out.new.tokens) }
    ensures before { out.new.before ≡ out.old.before }
    ensures kept { OnErr result (out.new.tokens ≡ out.old.tokens) }
{
    out.float_with_plus(double)
}
