// How many cells a complex has in each degree.
ghost use Rattle.std.specs.Prelude.{◌≡◌, Ok};
ghost use Rattle.report.specs.Degrees.{listed};
ghost use Rattle.forms.specs.Counts.{dims, measured};

use complex::Complex;
use report::ByDegree;

// Of a complex, which keeps the limits.
pub(crate) fn dims_of<C: Complex>(c: &C) -> ByDegree
    requires { C.Complex.sound c.now }
    ensures is { listed result ≡ dims (C.Complex.meaning c.now) }
    ensures measured { Ok (listed result) ≡ measured (C.Complex.meaning c.now) }
{
    c.law();
    let top = c.top();
    let mut numbers = [0; 9];
    for k in 0..=top {
        numbers[k] = c.dim(k);
    }
    ByDegree { numbers, top }
}
