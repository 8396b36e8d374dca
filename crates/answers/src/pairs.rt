//! What was made, held beside what is made after it.

ghost use Rattle.std.specs.Prelude.{◌≡◌};
ghost use Rattle.std.specs.Result.{result_map_both};

/// What was made, with what was made after it; where the second failed, its error, and the first is dropped.
///
/// A caller that holds the first while it makes the second, and returns at the second's error, drops the first itself.
/// Of a value with many forms that is a path for each form, and each has to be proved. Here dropping is one call, whatever
/// the type is.
pub fn beside<A: Drop, B: Drop, E: Drop>(first: A, second: Result<B, E>) -> Result<(A, B), E>
    ensures { result ≡ result_map_both (λ b. (first, b)) (λ error. error) second }
{
    match second {
        Ok(second) => Ok((first, second)),
        Err(error) => Err(error),
    }
}
