// A theorem about plain text, as the contract of a function. Without its proof the crate is refused.
ghost use Rattle.plaintext.specs.Bytes.{LinesAre};

// The lines of a text are what the next line and the next lines after it are.
pub fn lines_come_one_by_one()
    ensures { LinesAre }
{}
