// Tables with an entry for each statement, counted from 1.
ghost use Rattle.std.specs.Prelude.{◌≡◌};
ghost use Rattle.surveys.specs.Tables.{entry};

// The entry of `statement`, or `none` beyond the table and at 0.
pub fn entry_or<T: Copy>(table: &[T], statement: u16, none: T) -> T
    ensures { result ≡ entry none table.now statement }
{
    usize::from(statement)
        .checked_sub(1)
        .and_then(|index| table.get(index))
        .copied()
        .unwrap_or(none)
}
