//! Assertions that name what they are about; the message is made in one place alone, since its proof is long.
use std::process::Abort;

/// Asserts what is to hold of a case of this name.
pub fn assert_of(rt: &impl Abort, name: &str, holds: bool) {
    assert!(rt; holds, "{name}");
}

/// Asserts what is to hold of each row of a table, which is a name and a line.
pub fn assert_each<F: Fn(&str, &str) -> bool>(rt: &impl Abort, table: &[(&str, &str)], holds: F)
    requires { F.IsAlwaysCallable holds }
{
    for (name, line) in table {
        assert_of(rt, name, holds(name, line));
    }
}
