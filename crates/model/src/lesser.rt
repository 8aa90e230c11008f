//! The lesser of two answers.
ghost use Rattle.std.specs.Prelude.{◌≡◌};
ghost use Rattle.model.specs.Lesser.{lesser_of};

/// The lesser of two numbers, where there are any.
pub(crate) fn lesser_of(x: Option<u16>, y: Option<u16>) -> Option<u16>
    ensures { result ≡ lesser_of x y }
{
    x.into_iter().chain(y).min()
}
