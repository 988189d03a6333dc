// A theorem about measured lines, as the contract of a function. Without its proof the crate is refused.
ghost use Rattle.lines.specs.Standings.{CountsAddUp};

// Each reading of a ramp is counted in one of the four standings.
pub fn counts_add_up()
    ensures { CountsAddUp }
{}
