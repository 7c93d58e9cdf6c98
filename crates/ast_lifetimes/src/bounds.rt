// The record `bounds`: its shape.
ghost use Rattle.std.specs.Prelude.{◌≡◌};
ghost use Rattle.records.specs.Reading.{shape_verdict};
ghost use Rattle.ast_lifetimes.specs.Shapes.{bounds_in_shape};

use answers::Refusal;
use records::MAX_WORDS;

// Whether the record `bounds` is in shape: how many pairs are the impl's, then pairs. Refused by 1.
pub fn bounds_shape(bounds: &[usize]) -> Result<(), Refusal>
    ensures answer { result ≡ shape_verdict (bounds_in_shape bounds.now) }
{
    let n = bounds.len();
    if n == 0 {
        return Err(Refusal::Malformed);
    }
    if MAX_WORDS < n {
        return Err(Refusal::Malformed);
    }
    if (n - 1) % 2 == 1 {
        return Err(Refusal::Malformed);
    }
    if (n - 1) / 2 < bounds[0] {
        return Err(Refusal::Malformed);
    }
    Ok(())
}
