ghost use Rattle.std.specs.Prelude.{◌↔◌, IsTrue};
ghost use Rattle.cost_certificate.specs.Tables.{IsAtMost};

use grd_base::Bound;

/// Whether the bound is at least as high as is needed. `Never` is at least every number.
pub fn is_enough(bound: Bound, need: Bound) -> bool
    ensures { IsTrue result ↔ IsAtMost need bound }
{
    match (bound, need) {
        (Bound::Never, _) => true,
        (Bound::Steps(_), Bound::Never) => false,
        (Bound::Steps(r), Bound::Steps(n)) => n <= r,
    }
}
