// The theorems of chains and of digits, each as the contract of a function. Without its proof the crate is refused.
ghost use Rattle.index.specs.Chains.{ChainsList};
ghost use Rattle.index.specs.Uses.{UsersAre};
ghost use Rattle.index.specs.Words.{TrimmingIs, PuttingIs};

use scales::Scale;

// A chain leads through exactly the places with its key, in rising order.
pub fn chains_list_their_places()
    ensures { ChainsList }
{}

// The users of a statement are exactly those that have it for a son.
pub fn users_are_parents<G: Scale>()
    ensures { UsersAre G }
{}

// Trimming takes the lowest digit that is 1, and no other.
pub fn trimming_takes_the_lowest()
    ensures { TrimmingIs }
{}

// Putting a number into a set puts in no other, and takes none out.
pub fn putting_adds_one()
    ensures { PuttingIs }
{}
