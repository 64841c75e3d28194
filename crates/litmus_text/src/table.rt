ghost use Rattle.std.specs.Prelude.{◌≡◌};
ghost use Rattle.litmus_text.specs.Table.{entries, value_named};

/// Returns the value of the name in the table.
pub fn value_named<T: Copy>(table: &[(&[u8], T)], name: &[u8]) -> Option<T>
    ensures { result ≡ value_named (entries table.now) name.now }
{
    let entry = table.iter().find(|entry| entry.0 == name)?;
    Some(entry.1)
}
