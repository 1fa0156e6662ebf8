//! What a case expects of what it finds. A case ends by an error and not by an assertion, because a library may not end the process.
use std::fmt::{Debug, Display};
use std::test::Fail;

/// Fails by these words if it is not so.
pub fn expect<D: Display + Drop>(is_so: bool, why: D) -> Result<(), Fail> {
    if is_so {
        return Ok(());
    }
    Err(Fail::new(why))
}

/// Fails if what is found is not what is wanted.
pub fn expect_equal<T: PartialEq + Debug + Drop>(found: T, wanted: T) -> Result<(), Fail> {
    if found == wanted {
        return Ok(());
    }
    Err(Fail::new(format_args!("found {found:?}, wanted {wanted:?}")))
}
