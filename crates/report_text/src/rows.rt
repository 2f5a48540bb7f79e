//! Tables, a line for each row.
ghost use Rattle.std.specs.Prelude.{◌≡◌, ◌++◌, List, ℕ, OnOk};
ghost use Rattle.std.specs.List.{flat_map};

use std::alloc::AllocError;

/// A row of a table, which has a line of its own.
pub trait Row {
    ghost line: { Self → List ℕ };

    /// Writes the line behind the text.
    fn put(&self, text: &mut Vec<u8>) -> Result<(), AllocError>
        ensures { OnOk result (text.new.items ≡ text.old.items ++ line self.now) };
}

/// Writes a line for each row.
pub fn put_rows<R: Row>(text: &mut Vec<u8>, rows: &[R]) -> Result<(), AllocError>
    ensures { OnOk result (text.new.items ≡ text.old.items ++ flat_map R.line rows.now) }
{
    for row in rows {
        row.put(text)?;
    }
    Ok(())
}
